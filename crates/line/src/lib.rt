// The queue's array: the queue put straight, a task taken out, and who goes first. The array is one of those of a run and
// lent as it stands there, so what it holds is asked of it and is no type's.
#![tactic(auto)]

ghost use Rattle.std.specs.Prelude.{◌≡◌, ◌++◌, ◌+◌, ◌≤◌, ◌<◌, ◌&&◌, ◌||◌, eqb, ltb, length, drop};
ghost use Rattle.rule.specs.View.{Clear};
ghost use Rattle.line.specs.Places.{ring, taken_out, Tasks, Best, Heads};

use rule::Setup;

// The queue of n tasks that starts at head in a ring is put straight: from place 0 on.
#[tactic(auto, using(crate::proofs::Rings::straight_zero))]
pub fn straight(queue: &mut [u8; 32], head: usize, n: usize)
    requires { (head ≤ n) × (n ≤ 32) }
    ensures { queue.new ≡ ring head n queue.old ++ drop n queue.old }
{
    if head == 0 {
        return; // it is straight
    }
    let before = *queue;
    // Two copies, since `rotate_left` by more than one place clears room of its own, which takes 2,500 instructions.
    queue[..n].copy_within(head.., 0);
    queue[n - head..n].copy_from_slice(&before[..head]);
}

// The task at a place leaves, and those of the n tasks that are behind it move up.
pub fn take_out(queue: &mut [u8; 32], place: usize, n: usize)
    requires place_lt_n { place < n }
    requires clear { Clear n queue.old }
    ensures { queue.new ≡ taken_out place queue.old }
{
    let last = n - 1;
    if place < last {
        // From a copy: a move within the array would call `memmove`, which the library needs nowhere else.
        let before = *queue;
        queue[place..last].copy_from_slice(&before[place + 1..n]);
    }
    queue[last] = 0;
}

// Of two tasks and their priorities, whether the second task goes before the first. As an order of pairs the tasks' numbers
// would have to be reversed.
#[tactic(auto, using(std::proofs::lemmas::Bool::Decides::nat_tests))]
fn overtakes(task: u8, top: u8, other: u8, rank: u8) -> bool
    ensures { result ≡ ltb top rank || (eqb top rank && ltb other task) }
{
    top < rank || (top == rank && other < task)
}

// The place of the task that goes first among n.
fn best_place(priority: &[u8; 32], n: usize, queue: &[u8; 32]) -> usize
    requires tasks { Tasks queue.now }
    requires n_bound { n ≤ 32 }
    ensures { Best priority.now n queue.now result }
{
    let mut place = 0;
    let mut task = queue[0];
    let mut top = priority[task as usize];
    for k in 1..n {
        let other = queue[k];
        let rank = priority[other as usize];
        // Most of the others have a smaller priority. Judged first and apart, such a place takes half the instructions.
        if rank < top {
            continue;
        }
        if overtakes(task, top, other, rank) {
            place = k;
            task = other;
            top = rank;
        }
    }
    place
}

// The head of n tasks, where it was at a place before.
pub fn head_of(p: &Setup, place: usize, n: usize, queue: &[u8; 32]) -> usize
    requires tasks { Tasks queue.now }
    requires n_bound { n ≤ 32 }
    ensures { Heads p.now place n queue.now result }
{
    if p.is_priority() {
        return best_place(&p.priority, n, queue);
    }
    if place < n { place } else { 0 }
}

// The head of n tasks and one more, which has just joined behind them: only the two are compared.
pub fn head_with(p: &Setup, place: usize, n: usize, queue: &[u8; 32]) -> usize
    requires tasks { Tasks queue.now }
    requires n_bound { n < 32 }
    requires heads { Heads p.now place n queue.now place }
    ensures { Heads p.now place (n + 1) queue.now result }
{
    if !p.is_priority() {
        return place;
    }
    let task = queue[place];
    let top = p.priority[task as usize];
    let joined = queue[n];
    let rank = p.priority[joined as usize];
    if overtakes(task, top, joined, rank) {
        n
    } else {
        place
    }
}
