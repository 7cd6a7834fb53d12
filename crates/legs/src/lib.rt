// A run taken apart: the cursor and the arrays, and its next leg: ticks one after another to one task. In order: the
// parts, the leg, the tests of the policy, the cursor's moves.
// What is asked of a cursor and a number together (`Room`, a bound on the clock) holds of the two, and is no type's.
#![tactic(auto)]

ghost use Rattle.std.specs.Prelude.{◌≡◌, ◌+◌, ◌≤◌, ◌<◌, ◌^◌};
ghost use Rattle.rule.specs.Tick.{overdue, used_more_lem};
ghost use Rattle.laws.specs.Sound.{Room};
ghost use Rattle.legs.specs.Parts.{next_place, turned_to, slice_due_lem, served_to, rested_to};
ghost use Rattle.legs.specs.Legs.{Ready, at_once, leg_of};

use rule::Setup;

// The small numbers of a run, which a move of the clock keeps in registers. The head is the place of the task that is
// served. The idle ticks are as wide as the places, so that no byte of the struct is padding.
#[derive(Clone, Copy)]
pub struct Cursor {
    pub clock: u32,
    pub used: u32,
    pub idle: usize,
    pub queued: usize,
    pub head: usize,
}

// The arrays of a run, in fixed memory: the queue's, the ticks owed and given, and the completions. The first `queued` places of the
// queue's hold the open tasks, as a ring from the head on under round robin.
#[derive(Clone, Copy)]
pub struct Arrays {
    pub queue: [u8; 32],
    pub owed: [u32; 32],
    pub given: [u32; 32],
    pub done: [u32; 32],
}

// A leg: the cursor after the turn, the task, the ticks that it is owed, and how many of them it gets.
#[derive(Clone, Copy)]
pub struct Leg {
    pub cursor: Cursor,
    pub task: u8,
    pub owed: u32,
    pub n: u32,
}

// Whether the slice is used up.
#[tactic(auto, using(std::proofs::lemmas::Bool::Decides::nat_tests), unfolding(rule::specs::Tick::overdue))]
fn overdue(p: &Setup, used: u32) -> bool
    ensures { result ≡ overdue p.now used }
{
    !p.is_priority() && used == p.slice
}

// How many ticks a task may have at once.
#[tactic(auto, using(std::proofs::lemmas::Bool::Decides::nat_tests), unfolding(crate::specs::Legs::at_once))]
fn at_once(p: &Setup, used: u32, owed: u32, limit: u32) -> u32
    requires { Room p.now used 1 }
    ensures { result ≡ at_once p.now used owed limit }
{
    let most = owed.min(limit);
    if p.is_priority() {
        return most;
    }
    most.min(p.slice - used)
}

// The used count after n ticks more; under priority there is none. The setup comes by value: so its slice is known to
// fit, and with it the count.
#[tactic(auto, using(std::proofs::lemmas::Bool::Decides::nat_tests), unfolding(rule::specs::Tick::used_more_lem))]
fn used_more(p: Setup, used: u32, n: u32) -> u32
    requires { Room p used n }
    ensures { result ≡ used_more_lem p used n }
{
    if p.is_priority() { 0 } else { used + n }
}

impl Cursor {
    // The place behind the head, round the end of the queue.
    fn next_place(self) -> usize
        requires { self.head < self.queued }
        ensures { result ≡ next_place self }
    {
        let next = self.head + 1;
        if next == self.queued { 0 } else { next }
    }

    // A head whose slice is used up moves to the back.
    #[tactic(auto, using(std::proofs::lemmas::Bool::Decides::nat_tests), unfolding(crate::specs::Parts::turned_to))]
    fn turned(self, p: &Setup) -> Cursor
        requires { self.head < self.queued }
        ensures { result ≡ turned_to p.now self }
    {
        if !overdue(p, self.used) {
            return self;
        }
        Cursor {
            used: 0,
            head: self.next_place(),
            ..self
        }
    }

    // The next leg, of at most limit ticks. Something is open.
    #[tactic(auto, unfolding(crate::specs::Legs::leg_of))]
    pub fn next_leg(self, p: &Setup, limit: u32, queue: &[u8; 32], owed: &[u32; 32]) -> Leg
        requires { Ready p.now self queue.now owed.now }
        ensures { result ≡ leg_of p.now self limit queue.now owed.now }
    {
        let cursor = self.turned(p);
        let head = cursor.head;
        let task = queue[head];
        let owed = owed[task as usize];
        let n = at_once(p, cursor.used, owed, limit);
        Leg {
            cursor,
            task,
            owed,
            n,
        }
    }

    // Whether a turn comes, to which the limit leaves a whole slice.
    pub fn slice_due(self, p: &Setup, limit: u32) -> bool
        ensures { result ≡ slice_due_lem p.now self limit }
    {
        overdue(p, self.used) && p.slice <= limit
    }

    // After n ticks of which none was the last that the task is owed.
    #[tactic(auto, unfolding(crate::specs::Parts::served_to))]
    pub fn served(self, p: &Setup, n: u32) -> Cursor
        requires n_bound { self.clock + n < 2 ^ 32 }
        requires room { Room p.now self.used n }
        ensures { result ≡ served_to p.now self n }
    {
        Cursor {
            clock: self.clock + n,
            used: used_more(*p, self.used, n),
            ..self
        }
    }

    // Idle ticks.
    #[tactic(auto, unfolding(crate::specs::Parts::rested_to))]
    pub fn rested(self, n: u32) -> Cursor
        requires n_bound { self.clock + n < 2 ^ 32 }
        requires idle_le_clock { self.idle ≤ self.clock }
        ensures { result ≡ rested_to self n }
    {
        Cursor {
            clock: self.clock + n,
            idle: self.idle + n as usize,
            ..self
        }
    }
}
