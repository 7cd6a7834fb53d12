// One run kept and moved forward in place: setting it up anew, and the calls on it, each a thin call over the same of a
// run by value, the form that document 01 names for them. A refused call leaves the very run.
#![tactic(auto)]

ghost use Rattle.std.specs.Prelude.{◌≡◌};
ghost use Rattle.rule.specs.Calls.{request, advance, drain};
ghost use Rattle.rule.specs.View.{MadeRun, Promised};
ghost use Rattle.setups.specs.Numbers.{setup_number};
ghost use Rattle.requests.specs.Numbers.{call_number};
ghost use Rattle.tracker.specs.Restarted.{Restarted};

use requests::CallRefusal;
use rule::{Request, Run, Setup};
use setups::{Asked, SetupRefusal};

// The run becomes the fresh run of the setup.
pub fn setup_in(run: &mut Run, setup: Setup) -> Result<(), SetupRefusal>
    ensures { Restarted run.old setup (setup_number result) run.new }
{
    *run = replay::setup(Asked::from(&setup))?;
    Ok(())
}

// Moves the clock to the time and opens the task.
pub fn request_in(run: &mut Run, asked: Request) -> Result<(), CallRefusal>
    requires { MadeRun run.old }
    ensures { Promised run.old (request asked.time asked.task asked.amount) (call_number result) run.new }
{
    *run = replay::request(*run, asked)?;
    Ok(())
}

// Moves the clock to the time.
pub fn advance_in(run: &mut Run, time: u32) -> Result<(), CallRefusal>
    requires { MadeRun run.old }
    ensures { Promised run.old (advance time) (call_number result) run.new }
{
    *run = replay::advance(*run, time)?;
    Ok(())
}

// Moves the clock to the first instant at which nothing is open. It is never refused.
pub fn drain_in(run: &mut Run)
    requires { MadeRun run.old }
    ensures { Promised run.old drain 0 run.new }
{
    *run = replay::drain(*run);
}
