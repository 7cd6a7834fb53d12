// A step of the clock on a run taken apart: idle ticks, or a leg. In order: what a leg gives, the cursor after the last
// ticks of a task, the step. The cursor goes by value from one function to the next, and so stays in registers; the
// facts of a run taken apart are asked here, and held by a type only where it stands in memory.
// A bound on a task or a count holds of the arguments of one call, and is asked there.
#![tactic(auto)]

ghost use Rattle.std.specs.Prelude.{◌≡◌, ◌+◌, ◌≤◌, ◌<◌, ◌^◌};
ghost use Rattle.lists.specs.Lists.{at};
ghost use Rattle.laws.specs.Sound.{Sound};
ghost use Rattle.laws.specs.Drains.{last_clock};
ghost use Rattle.line.specs.Places.{Tasks};
ghost use Rattle.legs.specs.Parts.{state_of, Kept};
ghost use Rattle.legs.specs.Legs.{owed_after, given_after};
ghost use Rattle.steps.specs.Steps.{Finished, Stepped};

use legs::{Arrays, Cursor, Leg};
use rule::Setup;

// The task gets its ticks.
fn given_to(leg: Leg, owed: &mut [u32; 32], given: &mut [u32; 32])
    requires task_bound { leg.task < 32 }
    requires n_bound { leg.n ≤ at owed.old leg.task }
    requires n_bound_2 { at given.old leg.task + leg.n < 2 ^ 32 }
    ensures owed_after { owed.new ≡ owed_after leg owed.old }
    ensures given_after { given.new ≡ given_after leg given.old }
{
    let i = leg.task as usize;
    owed[i] -= leg.n;
    given[i] += leg.n;
}

// After the last ticks that the task at the head is owed: it leaves the queue.
fn finished(p: &Setup, leg: Leg, queue: &mut [u8; 32], done: &mut [u32; 32]) -> Cursor
    requires n_bound { leg.cursor.clock + leg.n < 2 ^ 32 }
    requires kept { Kept p.now leg.cursor queue.old }
    requires queued_nonzero { 0 < leg.cursor.queued }
    requires tasks { Tasks queue.old }
    requires task_bound { leg.task < 32 }
    ensures { Finished p.now leg.cursor leg.task leg.n queue.old done.old result
        queue.new done.new }
{
    let c = leg.cursor;
    let clock = c.clock + leg.n;
    done[leg.task as usize] = clock;
    let left = c.queued - 1;
    line::take_out(queue, c.head, c.queued);
    let head = line::head_of(p, c.head, left, queue);
    Cursor {
        clock,
        used: 0, // of the next head's slice
        queued: left,
        head,
        ..c
    }
}

// The next leg is given.
fn give_leg(p: &Setup, c: Cursor, limit: u32, arrays: &mut Arrays) -> Cursor
    requires kept { Kept p.now c arrays.old.queue }
    requires sound { Sound (state_of p.now c arrays.old) }
    requires limit_nonzero { 0 < limit }
    requires limit_bound { c.clock + limit ≤ last_clock }
    requires queued_nonzero { 0 < c.queued }
    ensures { Stepped p.now result arrays.new.queue limit
        (state_of p.now c arrays.old) (state_of p.now result arrays.new) }
{
    let leg = c.next_leg(p, limit, &arrays.queue, &arrays.owed);
    given_to(leg, &mut arrays.owed, &mut arrays.given);
    if leg.owed == leg.n {
        return finished(p, leg, &mut arrays.queue, &mut arrays.done);
    }
    leg.cursor.served(p, leg.n)
}

// Ticks as far as the limit where nothing is open, and else the next leg.
pub fn step(p: &Setup, c: Cursor, limit: u32, arrays: &mut Arrays) -> Cursor
    requires kept { Kept p.now c arrays.old.queue }
    requires sound { Sound (state_of p.now c arrays.old) }
    requires limit_nonzero { 0 < limit }
    requires limit_bound { c.clock + limit ≤ last_clock }
    ensures { Stepped p.now result arrays.new.queue limit
        (state_of p.now c arrays.old) (state_of p.now result arrays.new) }
{
    if c.queued == 0 {
        return c.rested(limit);
    }
    // Nearly all steps under round robin give a whole slice to a task that is owed more. Judged first and apart, such a
    // step takes 29 instructions and not 37.
    if c.slice_due(p, limit) {
        let leg = c.next_leg(p, p.slice, &arrays.queue, &arrays.owed);
        if leg.n < leg.owed {
            given_to(leg, &mut arrays.owed, &mut arrays.given);
            return leg.cursor.served(p, leg.n);
        }
    }
    give_leg(p, c, limit, arrays)
}
