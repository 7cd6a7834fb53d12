// What a request does after the move of the clock: the task joins.
ghost use Rattle.std.specs.Prelude.{◌≡◌, ◌+◌, ◌<◌, ◌++◌, drop};
ghost use Rattle.line.specs.Places.{queue_at, Tasks};
ghost use Rattle.legs.specs.Parts.{Kept};
ghost use Rattle.engine.specs.Joining.{straight_to, Opens};

use legs::Cursor;
use rule::Setup;

// The queue from place 0 on.
#[tactic(auto, using(std::proofs::lemmas::Bool::Decides::nat_tests, line::proofs::Queues::queue_at_priority, line::proofs::Queues::queue_at_robin), unfolding(crate::specs::Joining::straight_to))]
pub fn straightened(p: &Setup, c: Cursor, queue: &mut [u8; 32]) -> Cursor
    requires { Kept p.now c queue.old }
    ensures value { result ≡ straight_to p.now c }
    ensures queue_after { queue.new
        ≡ queue_at p.now c.head c.queued queue.old ++ drop c.queued queue.old }
{
    if p.is_priority() {
        return c;
    }
    line::straight(queue, c.head, c.queued);
    Cursor { head: 0, ..c }
}

// A task that is not open joins the back of the queue.
pub fn joined(
    p: &Setup,
    c: Cursor,
    task: u8,
    amount: u32,
    queue: &mut [u8; 32],
    owed: &mut [u32; 32],
) -> Cursor
    requires kept { Kept p.now c queue.old }
    requires queued_bound { c.queued < 32 }
    requires tasks { Tasks queue.old }
    requires task_bound { task < 32 }
    ensures { Opens p.now c task amount queue.old owed.old result
        queue.new owed.new }
{
    owed[task as usize] = amount;
    let ready = straightened(p, c, queue);
    let n = c.queued;
    queue[n] = task;
    let head = line::head_with(p, ready.head, n, queue);
    Cursor {
        queued: n + 1,
        head,
        ..c
    }
}
