// The replay on a run taken apart: its setup, a cursor of small numbers, and the arrays. In order: moves of the clock, a
// run taken apart and what is asked of it, the next completion. Inside: a task that joins (opening).
#![tactic(auto)]

mod opening;

ghost use Rattle.std.specs.Prelude.{◌≡◌, ◌+◌, ◌≤◌, ◌<◌, ◌^◌, length};
ghost use Rattle.lists.specs.Lists.{total};
ghost use Rattle.rule.specs.Setups.{setup_refusal_lem};
ghost use Rattle.rule.specs.State.{fresh};
ghost use Rattle.rule.specs.Calls.{moved, drained};
ghost use Rattle.rule.specs.View.{view, Tidy, Shows};
ghost use Rattle.laws.specs.Sound.{Sound};
ghost use Rattle.laws.specs.Drains.{last_clock};
ghost use Rattle.legs.specs.Parts.{state_of, Kept};
ghost use Rattle.requests.specs.Numbers.{call_number};
ghost use Rattle.engine.specs.Promises.{Reached, Asks, Owing, SoonestIs, Apart};

use legs::{Arrays, Cursor};
use requests::CallRefusal;
use rule::{Request, Run, Setup};

// The clock moves to a time that is not before it. The cursor is a value of the loop's own, and so stays in registers.
fn walked(p: &Setup, from: Cursor, time: u32, arrays: &mut Arrays) -> Cursor
    requires kept { Kept p.now from arrays.old.queue }
    requires sound { Sound (state_of p.now from arrays.old) }
    requires clock_le_time { from.clock ≤ time }
    requires time_le_last_clock { time ≤ last_clock }
    ensures { Reached p.now result arrays.new.queue
        (moved (state_of p.now from arrays.old) time) (state_of p.now result arrays.new) }
{
    let mut c = from;
    while c.clock < time {
        // Whole rounds of slices, by division, have their place here, before the step and with a promise like its own.
        c = steps::step(p, c, time - c.clock, arrays);
    }
    c
}

// The ticks owed to all tasks.
pub fn total_of(owed: &[u32; 32]) -> u32
    requires { total owed.now < 2 ^ 32 }
    ensures { result ≡ total owed.now }
{
    owed.iter().sum()
}

// The cursor of a run whose arrays are lent as they stand.
pub fn cursor_of(run: &Run) -> Cursor
    requires tidy { Tidy run.now }
    requires sound { Sound (view run.now) }
    ensures { Apart run.now result }
{
    Cursor {
        clock: run.clock,
        used: run.used,
        idle: run.idle as usize,
        queued: run.queued,
        head: line::head_of(&run.setup, 0, run.queued, &run.queue),
    }
}

// A run taken apart.
#[derive(Drop)]
pub struct Live {
    pub setup: Setup,
    pub cursor: Cursor,
    pub arrays: Arrays,
    pub ghost kept: { Kept setup cursor arrays.queue },
    pub ghost sound: { Sound (state_of setup cursor arrays) },
}

impl Live {
    ghost use Rattle.engine.specs.Live.{state};

    // The parts of a run.
    pub fn of(run: &Run) -> Live
        requires tidy { Tidy run.now }
        requires sound { Sound (view run.now) }
        ensures { state result ≡ view run.now }
    {
        Live {
            setup: run.setup,
            cursor: cursor_of(run),
            arrays: Arrays {
                queue: run.queue,
                owed: run.owed,
                given: run.given,
                done: run.done,
            },
        }
    }

    // The parts of a fresh run of an accepted setup.
    pub fn fresh(setup: Setup) -> Live
        requires { setup_refusal_lem setup ≡ 0 }
        ensures { state result ≡ fresh setup }
    {
        Live {
            setup,
            cursor: Cursor {
                clock: 0,
                used: 0,
                idle: 0,
                queued: 0,
                head: 0,
            },
            arrays: Arrays {
                queue: [0; 32],
                owed: [0; 32],
                given: [0; 32],
                done: [0; 32],
            },
        }
    }

    // The clock moves to a time that is not before it.
    pub fn walk(&mut self, time: u32)
        requires clock_le_time { self.old.cursor.clock ≤ time }
        requires time_le_last_clock { time ≤ last_clock }
        ensures { state self.new ≡ moved (state self.old) time }
    {
        self.cursor = walked(&self.setup, self.cursor, time, &mut self.arrays);
    }

    // The clock moves to the first instant at which nothing is open.
    pub fn drain(&mut self)
        requires { self.old.cursor.clock + total self.old.arrays.owed ≤ last_clock }
        ensures { state self.new ≡ drained (state self.old) }
    {
        let left = total_of(&self.arrays.owed);
        self.walk(self.cursor.clock + left);
    }

    // A request. Refused by 14 it leaves the parts moved to the time. It is compiled into both its callers, which saves 35
    // instructions a row of a table.
    #[inline(always)]
    pub fn ask(&mut self, request: Request) -> Result<(), CallRefusal>
        ensures { Asks request.time request.task request.amount (call_number result)
            (state self.old) (state self.new) }
    {
        requests::early_refusal(self.setup.count, self.cursor.clock, request)?;
        self.walk(request.time);
        if 0 < self.arrays.owed[request.task as usize] {
            return Err(CallRefusal::StillOpen);
        }
        self.cursor = opening::joined(
            &self.setup,
            self.cursor,
            request.task as u8,
            request.amount,
            &mut self.arrays.queue,
            &mut self.arrays.owed,
        );
        Ok(())
    }

    // The run that the parts make, its queue from place 0 on.
    pub fn to_run(&self) -> Run
        ensures { Shows result (state self.now) }
    {
        let mut queue = self.arrays.queue;
        let cursor = opening::straightened(&self.setup, self.cursor, &mut queue);
        Run {
            setup: self.setup,
            clock: cursor.clock,
            idle: cursor.idle as u32,
            used: cursor.used,
            queued: cursor.queued,
            queue,
            owed: self.arrays.owed,
            given: self.arrays.given,
            done: self.arrays.done,
        }
    }
}

// A task, and when it is done.
#[derive(Clone, Copy)]
pub struct NextDone {
    pub task: u32,
    pub time: u32,
}

// The task that is done next, and when, if nothing more is asked. Something is open.
pub fn soonest(p: &Setup, from: Cursor, queue: &[u8; 32], owed: &[u32; 32]) -> NextDone
    requires kept { Kept p.now from queue.now }
    requires owing { Owing p.now from queue.now owed.now }
    requires queued_nonzero { 0 < from.queued }
    requires owed_bound { from.clock + total owed.now ≤ last_clock }
    ensures { SoonestIs p.now from queue.now owed.now result }
{
    let mut left = *owed;
    let mut c = from;
    loop {
        let leg = c.next_leg(p, 4_032_000_000, queue, &left);
        if leg.owed == leg.n {
            return NextDone {
                task: leg.task as u32,
                time: leg.cursor.clock + leg.n,
            };
        }
        left[leg.task as usize] -= leg.n;
        c = leg.cursor.served(p, leg.n);
    }
}
