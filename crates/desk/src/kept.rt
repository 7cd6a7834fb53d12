// C has each call and reading twice. These are on a run that a caller keeps: each promises of the run before and after what the call by
// value does, and a refused call leaves the very run.
ghost use Rattle.std.specs.Prelude.{◌≡◌};
ghost use Rattle.lists.specs.Lists.{total};
ghost use Rattle.rule.specs.Calls.{request, advance, drain};
ghost use Rattle.rule.specs.Readings.{owed_of_lem, given_of, completed_of_lem, next_done_lem};
ghost use Rattle.rule.specs.View.{view, MadeRun, Promised};
ghost use Rattle.tracker.specs.Restarted.{Restarted};
ghost use Rattle.face.specs.Face.{read_face, next_face};

use face::{NextFace, ReadFace};
use rule::{Request, Run, Setup};

// ---- calls

#[unsafe(no_mangle)]
pub extern "C" fn anduri_setup_in(run: &mut Run, setup: Setup) -> u32
    ensures { Restarted run.old setup result run.new }
{
    face::number(tracker::setup_in(run, setup))
}

#[unsafe(no_mangle)]
pub extern "C" fn anduri_request_in(run: &mut Run, time: u32, task: u32, amount: u32) -> u32
    requires { MadeRun run.old }
    ensures { Promised run.old (request time task amount) result run.new }
{
    let asked = Request { time, task, amount };
    face::number(tracker::request_in(run, asked))
}

#[unsafe(no_mangle)]
pub extern "C" fn anduri_advance_in(run: &mut Run, time: u32) -> u32
    requires { MadeRun run.old }
    ensures { Promised run.old (advance time) result run.new }
{
    face::number(tracker::advance_in(run, time))
}

#[unsafe(no_mangle)]
pub extern "C" fn anduri_drain_in(run: &mut Run) -> u32
    requires { MadeRun run.old }
    ensures { Promised run.old drain result run.new }
{
    tracker::drain_in(run);
    0
}

// ---- readings

#[unsafe(no_mangle)]
pub extern "C" fn anduri_clock_of(run: &Run) -> u32
    ensures { result ≡ (view run.now).clock }
{
    readings::clock(run)
}

#[unsafe(no_mangle)]
pub extern "C" fn anduri_total_owed_of(run: &Run) -> u32
    requires { MadeRun run.now }
    ensures { result ≡ total (view run.now).owed }
{
    readings::total_owed(run)
}

#[unsafe(no_mangle)]
pub extern "C" fn anduri_idle_of(run: &Run) -> u32
    ensures { result ≡ (view run.now).idle }
{
    readings::idle(run)
}

#[unsafe(no_mangle)]
pub extern "C" fn anduri_owed_of(run: &Run, task: u32) -> ReadFace
    requires { MadeRun run.now }
    ensures { result ≡ read_face (owed_of_lem (view run.now) task) }
{
    ReadFace::from(readings::owed(run, task))
}

#[unsafe(no_mangle)]
pub extern "C" fn anduri_given_of(run: &Run, task: u32) -> ReadFace
    requires { MadeRun run.now }
    ensures { result ≡ read_face (given_of (view run.now) task) }
{
    ReadFace::from(readings::given(run, task))
}

#[unsafe(no_mangle)]
pub extern "C" fn anduri_completed_of(run: &Run, task: u32) -> ReadFace
    requires { MadeRun run.now }
    ensures { result ≡ read_face (completed_of_lem (view run.now) task) }
{
    ReadFace::from(readings::completed(run, task))
}

#[unsafe(no_mangle)]
pub extern "C" fn anduri_next_of(run: &Run) -> NextFace
    requires { MadeRun run.now }
    ensures { result ≡ next_face (next_done_lem (view run.now)) }
{
    NextFace::from(readings::next_done(run))
}
