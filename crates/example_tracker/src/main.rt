// Run A of document 01 followed call by call, each of which lends the run to the call in place. A line after each call,
// and at the end the completions.
#![tactic(auto)]

ghost use Rattle.rule.specs.View.{MadeRun};

use rule::{Request, Run};
use setups::Asked;
use std::io;

// The clock and the ticks owed, after the call that is named.
fn line(to: &impl Print, call: &str, run: &Run) -> io::Result<()>
    requires { MadeRun run.now }
{
    let clock = readings::clock(run);
    let owed = readings::total_owed(run);
    println!(to; "{call}: clock {clock}, owed {owed}")
}

fn completion(to: &impl Print, run: &Run, task: u32) -> io::Result<()>
    requires { MadeRun run.now }
{
    match readings::completed(run, task) {
        Ok(Some(time)) => println!(to; "task {task} done {time}"),
        Ok(None) => println!(to; "task {task} never done"),
        Err(_) => println!(to; "task {task} is not counted"),
    }
}

// A request on the run, which stays as it is where the request is refused.
#[tactic(auto, using(laws::proofs::Unique::made_promised))]
fn request(run: &mut Run, time: u32, task: u32, amount: u32)
    requires { MadeRun run.old }
    ensures { MadeRun run.new }
{
    let _ = tracker::request_in(run, Request { time, task, amount });
}

#[tactic(auto, using(laws::proofs::Unique::made_promised))]
fn advance(run: &mut Run, time: u32)
    requires { MadeRun run.old }
    ensures { MadeRun run.new }
{
    let _ = tracker::advance_in(run, time);
}

#[tactic(auto, using(laws::proofs::Unique::made_promised))]
fn drain(run: &mut Run)
    requires { MadeRun run.old }
    ensures { MadeRun run.new }
{
    tracker::drain_in(run);
}

fn follow(to: &impl Print, mut run: Run) -> io::Result<()>
    requires { MadeRun run }
{
    request(&mut run, 0, 0, 5);
    line(to, "request 0 0 5", &run)?;
    request(&mut run, 2, 1, 2);
    line(to, "request 2 1 2", &run)?;
    advance(&mut run, 3);
    line(to, "advance 3", &run)?;
    // Task 0 is still open at 6: refused, and nothing changes.
    request(&mut run, 6, 0, 1);
    line(to, "request 6 0 1", &run)?;
    drain(&mut run);
    line(to, "drain", &run)?;
    completion(to, &run, 0)?;
    completion(to, &run, 1)
}

// Two tasks, round robin, slice 1.
#[tactic(auto, using(laws::proofs::Unique::made_started))]
fn main(rt: HostRuntime) -> io::Result<()> {
    let wanted = Asked {
        policy: 2,
        count: 2,
        slice: 1,
        priorities: &[0; 32],
    };
    match replay::setup(wanted) {
        Ok(run) => follow(&rt, run),
        Err(_) => println!(rt; "the setup is refused"),
    }
}
