// The rows of a table: run one after the other on the parts of a run, and the completions written.
#![tactic(auto)]

ghost use Rattle.std.specs.Prelude.{◌≡◌, ◌≤◌, ◌<◌, cond, ◌++◌, length, set, drop, eqb};
ghost use Rattle.lists.specs.Lists.{at, Below};
ghost use Rattle.rule.specs.State.{fresh};
ghost use Rattle.rule.specs.Table.{most_rows};
ghost use Rattle.requests.specs.Columns.{rows_of, ColumnsFitted};
ghost use Rattle.rows.specs.Promises.{Runs, settled_column};

use engine::Live;
use requests::{CallRefusal, Columns};
use rule::{Request, Setup};

// The first row that is refused, counted from 1, and why.
#[derive(Clone, Copy, Debug, PartialEq, Eq)]
pub struct RowRefusal {
    pub row: u32,
    pub refusal: CallRefusal,
}

// The rows run: the clock after the drain; each task's last row, counted from 1, or 0; and each task's latest
// completion. 0 is a place among the notes too, which no row reads: so a task's first row is noted without a test.
#[derive(Clone, Copy)]
pub struct Ran {
    pub end: u32,
    pub last: [u32; 32],
    pub done: [u32; 32],
}

// A task is requested: the completion of its row before is noted at that row's number, or at 0 if it has none, and
// this row is its last.
fn note(task: usize, row: u32, done: &[u32; 32], last: &mut [u32; 32], noted: &mut [u32])
    requires task_bound { task < 32 }
    requires task_in_bounds { at last.old task < length noted.old }
    ensures last_after { last.new ≡ set last.old task row }
    ensures noted_after { noted.new
        ≡ set noted.old (at last.old task) (at done.now task) }
{
    let before = last[task] as usize;
    noted[before] = done[task];
    last[task] = row;
}

// The rows are requested in order, up to the first that is refused; after the last the run drains. Of the notes after
// a refused row nothing is promised: `table`, the only caller, answers the refusal and reads none of them.
pub fn run_rows(setup: Setup, columns: Columns<'_>, noted: &mut [u32]) -> Result<Ran, RowRefusal>
    requires fitted { ColumnsFitted setup columns }
    requires times_in_bounds { length columns.times.now < length noted.old }
    ensures { Runs (fresh setup) (rows_of columns.entry)
        columns.entry.tasks.now result noted.old noted.new }
{
    let mut live = Live::fresh(setup);
    let mut last = [0; 32];
    for i in 0..columns.times.len() {
        // The columns fit; `Columns::row` would ask at each entry whether it is past an end.
        let request = Request {
            time: columns.times[i],
            task: columns.tasks[i],
            amount: columns.amounts[i],
        };
        let row = i as u32 + 1;
        if let Err(refusal) = live.ask(request) {
            return Err(RowRefusal { row, refusal });
        }
        let task = request.task as usize;
        note(task, row, &live.arrays.done, &mut last, noted);
    }
    live.drain();
    Ok(Ran {
        end: live.cursor.clock,
        last,
        done: live.arrays.done,
    })
}

// A row's completion: the task's latest if the row is its task's last, else what was noted.
#[tactic(auto, using(std::proofs::lemmas::Bool::Decides::nat_tests))]
fn one_of(last: u32, row: u32, done: u32, noted: u32) -> u32
    ensures { result ≡ cond (eqb last row) done noted }
{
    if last == row { done } else { noted }
}

// The completions are written; the entries past the rows stay.
#[tactic(auto, using(crate::proofs::Putting::putting_start))]
pub fn put_result(tasks: &[u32], ran: &Ran, noted: &[u32], res: &mut [u32])
    requires tasks_len_bound { length tasks.now ≤ most_rows }
    requires tasks_in_bounds { length tasks.now < length noted.now }
    requires tasks_in_bounds_2 { length tasks.now ≤ length res.old }
    requires below { Below 32 tasks.now }
    ensures { res.new ≡ settled_column tasks.now ran.now.last ran.now.done noted.now
        ++ drop (length tasks.now) res.old }
{
    for (i, task) in tasks.iter().enumerate() {
        let task = *task as usize;
        let own = i as u32 + 1;
        res[i] = one_of(ran.last[task], own, ran.done[task], noted[i + 1]);
    }
}
