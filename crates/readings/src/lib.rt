// The readings of a run. Each leaves the run as it is.
#![tactic(auto)]

ghost use Rattle.std.specs.Prelude.{◌≡◌, ◌≤◌, cond, leb};
ghost use Rattle.lists.specs.Lists.{at, total};
ghost use Rattle.rule.specs.View.{view, MadeRun};
ghost use Rattle.rule.specs.Readings.{value, refused, owed_of_lem, given_of, completed_of_lem, next_done_lem};
ghost use Rattle.readings.specs.Answers.{no_such_task_number, ticks_told, completion_told, next_told};

use engine::NextDone;
use rule::Run;

// A reading of a task that is not counted: refusal 12.
#[derive(Clone, Copy, Debug, PartialEq, Eq)]
pub struct NoSuchTask;

impl From<NoSuchTask> for u32 {
    ghost from_gives = { λ refusal number. number ≡ no_such_task_number refusal };

    fn from(_refusal: NoSuchTask) -> u32 {
        12
    }
}

// The clock, in ticks since the start.
pub fn clock(run: &Run) -> u32
    ensures { result ≡ (view run.now).clock }
{
    run.clock
}

// Idle ticks since the start.
pub fn idle(run: &Run) -> u32
    ensures { result ≡ (view run.now).idle }
{
    run.idle
}

// Ticks owed to all tasks.
pub fn total_owed(run: &Run) -> u32
    requires { MadeRun run.now }
    ensures { result ≡ total (view run.now).owed }
{
    engine::total_of(&run.owed)
}

// A task's entry of a column, refused where the task is not counted.
#[tactic(auto, using(std::proofs::lemmas::Bool::Decides::nat_tests))]
fn entry_of(count: u32, column: &[u32; 32], task: u32) -> Result<u32, NoSuchTask>
    requires { count ≤ 32 }
    ensures { ticks_told result ≡ cond (leb count task) (refused 12) (value (at column.now task)) }
{
    if count <= task {
        return Err(NoSuchTask);
    }
    Ok(column[task as usize])
}

// Ticks owed to a task, 0 if it is not open. This and the next two differ in their column alone, which is all they say.
#[tactic(auto, using(crate::proofs::Reading::made_few))]
pub fn owed(run: &Run, task: u32) -> Result<u32, NoSuchTask>
    requires { MadeRun run.now }
    ensures { ticks_told result ≡ owed_of_lem (view run.now) task }
{
    entry_of(run.setup.count, &run.owed, task)
}

// Ticks given to a task since the start.
#[tactic(auto, using(crate::proofs::Reading::made_few))]
pub fn given(run: &Run, task: u32) -> Result<u32, NoSuchTask>
    requires { MadeRun run.now }
    ensures { ticks_told result ≡ given_of (view run.now) task }
{
    entry_of(run.setup.count, &run.given, task)
}

// A task's latest completion, if it has one, which a new request does not erase.
#[tactic(auto, using(crate::proofs::Reading::made_few))]
pub fn completed(run: &Run, task: u32) -> Result<Option<u32>, NoSuchTask>
    requires { MadeRun run.now }
    ensures { completion_told result ≡ completed_of_lem (view run.now) task }
{
    let done = entry_of(run.setup.count, &run.done, task)?;
    Ok((done != 0).then_some(done))
}

// The task that would be done next and when, if nothing more were asked and something is open.
pub fn next_done(run: &Run) -> Option<NextDone>
    requires { MadeRun run.now }
    ensures { next_told result ≡ next_done_lem (view run.now) }
{
    if run.queued == 0 {
        return None;
    }
    let cursor = engine::cursor_of(run);
    let next = engine::soonest(&run.setup, cursor, &run.queue, &run.owed);
    Some(next)
}
