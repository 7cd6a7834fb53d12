// The C face, described in include/anduri.h: each function is a call of a proved one, with plain numbers for its
// answer.
#![tactic(auto)]

ghost use Rattle.std.specs.Prelude.{◌≡◌, length};
ghost use Rattle.lists.specs.Lists.{total};
ghost use Rattle.rule.specs.Setups.{asked};
ghost use Rattle.rule.specs.Calls.{request, advance, drain};
ghost use Rattle.rule.specs.Readings.{owed_of_lem, given_of, completed_of_lem, next_done_lem};
ghost use Rattle.rule.specs.Table.{table};
ghost use Rattle.rule.specs.View.{view, MadeRun, Started, Promised};
ghost use Rattle.judging.specs.Log.{judged};
ghost use Rattle.cells.specs.Writes.{Puts};
ghost use Rattle.report.specs.Report.{report_text};
ghost use Rattle.face.specs.Face.{read_face, next_face, verdict_face, FaceAnswers};

use face::{MoveFace, NextFace, OutcomeFace, ReadFace, VerdictFace};
use requests::Columns;
use rule::{Request, Run};
use setups::Asked;

// Calls and readings on a run that the caller keeps.
pub mod kept;

// ---- runs

#[unsafe(no_mangle)]
pub extern "C" fn anduri_setup(policy: u32, count: u32, slice: u32, priorities: &[u8]) -> MoveFace
    ensures { Started (asked policy count slice priorities.now) result.refusal result.run }
{
    let wanted = Asked {
        policy,
        count,
        slice,
        priorities,
    };
    face::move_of(replay::plain_run(), replay::setup(wanted))
}

#[unsafe(no_mangle)]
pub extern "C" fn anduri_request(run: Run, time: u32, task: u32, amount: u32) -> MoveFace
    requires { MadeRun run }
    ensures { Promised run (request time task amount) result.refusal result.run }
{
    let asked = Request { time, task, amount };
    face::move_of(run, replay::request(run, asked))
}

#[unsafe(no_mangle)]
pub extern "C" fn anduri_advance(run: Run, time: u32) -> MoveFace
    requires { MadeRun run }
    ensures { Promised run (advance time) result.refusal result.run }
{
    face::move_of(run, replay::advance(run, time))
}

#[unsafe(no_mangle)]
pub extern "C" fn anduri_drain(run: Run) -> MoveFace
    requires { MadeRun run }
    ensures { Promised run drain result.refusal result.run }
{
    MoveFace {
        refusal: 0,
        run: replay::drain(run),
    }
}

#[unsafe(no_mangle)]
pub extern "C" fn anduri_clock(run: Run) -> u32
    ensures { result ≡ (view run).clock }
{
    readings::clock(&run)
}

#[unsafe(no_mangle)]
pub extern "C" fn anduri_total_owed(run: Run) -> u32
    requires { MadeRun run }
    ensures { result ≡ total (view run).owed }
{
    readings::total_owed(&run)
}

#[unsafe(no_mangle)]
pub extern "C" fn anduri_idle(run: Run) -> u32
    ensures { result ≡ (view run).idle }
{
    readings::idle(&run)
}

#[unsafe(no_mangle)]
pub extern "C" fn anduri_owed(run: Run, task: u32) -> ReadFace
    requires { MadeRun run }
    ensures { result ≡ read_face (owed_of_lem (view run) task) }
{
    ReadFace::from(readings::owed(&run, task))
}

#[unsafe(no_mangle)]
pub extern "C" fn anduri_given(run: Run, task: u32) -> ReadFace
    requires { MadeRun run }
    ensures { result ≡ read_face (given_of (view run) task) }
{
    ReadFace::from(readings::given(&run, task))
}

#[unsafe(no_mangle)]
pub extern "C" fn anduri_completed(run: Run, task: u32) -> ReadFace
    requires { MadeRun run }
    ensures { result ≡ read_face (completed_of_lem (view run) task) }
{
    ReadFace::from(readings::completed(&run, task))
}

#[unsafe(no_mangle)]
pub extern "C" fn anduri_next(run: Run) -> NextFace
    requires { MadeRun run }
    ensures { result ≡ next_face (next_done_lem (view run)) }
{
    NextFace::from(readings::next_done(&run))
}

// ---- tables and logs

#[unsafe(no_mangle)]
pub extern "C" fn anduri_table(
    policy: u32,
    count: u32,
    slice: u32,
    priorities: &[u8],
    times: &[u32],
    tasks: &[u32],
    amounts: &[u32],
    res: &mut [u32],
) -> OutcomeFace
    ensures { FaceAnswers
        (table (asked policy count slice priorities.now) times.now tasks.now
        amounts.now (length res.old))
        res.old result res.new }
{
    let wanted = Asked {
        policy,
        count,
        slice,
        priorities,
    };
    let columns = Columns {
        times,
        tasks,
        amounts,
    };
    OutcomeFace::from(table::table(wanted, columns, res))
}

#[unsafe(no_mangle)]
pub extern "C" fn anduri_judge(log: &[u8]) -> VerdictFace
    ensures { result ≡ verdict_face log.now (judged log.now) }
{
    face::verdict_on(log)
}

#[unsafe(no_mangle)]
pub extern "C" fn anduri_report(log: &[u8], out: &mut [u8; 65536]) -> usize
    ensures { Puts out.old out.new (report_text log.now) result }
{
    report::report(log, out)
}
