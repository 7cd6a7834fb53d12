// A run by value: setting it up, and the calls on it.
#![tactic(auto)]

ghost use Rattle.std.specs.Prelude.{◌≡◌};
ghost use Rattle.std.specs.Result.{result_unwrap_or};
ghost use Rattle.rule.specs.Calls.{request, advance, drain};
ghost use Rattle.rule.specs.State.{fresh};
ghost use Rattle.rule.specs.View.{MadeRun, Shows, Started, Promised};
ghost use Rattle.setups.specs.Numbers.{setup_number};
ghost use Rattle.setups.specs.Judging.{asked_by};
ghost use Rattle.requests.specs.Numbers.{call_number};
ghost use Rattle.replay.specs.Answers.{plain_run};

use engine::Live;
use requests::CallRefusal;
use rule::{Request, Run, Setup};
use setups::{Asked, SetupRefusal};

// A run with clock 0 on which nothing was asked, of any setup; `Live::fresh` makes the parts of one that is accepted.
fn fresh_run(setup: Setup) -> Run
    ensures { Shows result (fresh setup) }
{
    Run {
        setup,
        clock: 0,
        idle: 0,
        used: 0,
        queued: 0,
        queue: [0; 32],
        owed: [0; 32],
        given: [0; 32],
        done: [0; 32],
    }
}

// The fresh run of one plain setup, which stands for the run of a refused one.
pub fn plain_run() -> Run
    ensures { result ≡ plain_run }
{
    fresh_run(Setup::plain())
}

// A fresh run of the setup.
pub fn setup(wanted: Asked<'_>) -> Result<Run, SetupRefusal>
    ensures { Started (asked_by wanted.entry) (setup_number result) (result_unwrap_or result plain_run) }
{
    Ok(fresh_run(setups::judged_setup(wanted)?))
}

// Moves the clock to the time and opens the task; a refusal leaves the very run.
pub fn request(run: Run, asked: Request) -> Result<Run, CallRefusal>
    requires { MadeRun run }
    ensures { Promised run (request asked.time asked.task asked.amount)
        (call_number result) (result_unwrap_or result run) }
{
    // Judged before the run is taken apart too: what is refused by 10 to 13 costs no copy of it.
    requests::early_refusal(run.setup.count, run.clock, asked)?;
    let mut live = Live::of(&run);
    live.ask(asked)?;
    Ok(live.to_run())
}

// Moves the clock to the time; a refusal leaves the very run.
pub fn advance(run: Run, time: u32) -> Result<Run, CallRefusal>
    requires { MadeRun run }
    ensures { Promised run (advance time) (call_number result) (result_unwrap_or result run) }
{
    requests::time_refusal(run.clock, time)?;
    let mut live = Live::of(&run);
    live.walk(time);
    Ok(live.to_run())
}

// Moves the clock to the first instant at which nothing is open. It is never refused.
pub fn drain(run: Run) -> Run
    requires { MadeRun run }
    ensures { Promised run drain 0 result }
{
    let mut live = Live::of(&run);
    live.drain();
    live.to_run()
}
