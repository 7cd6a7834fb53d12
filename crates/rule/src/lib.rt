// The run: what the replay holds between two calls. What its fields mean, and what each call does to them, is said in
// specs/.
#![tactic(auto)]

ghost use Rattle.std.specs.Prelude.{◌≡◌};
ghost use Rattle.rule.specs.Setups.{is_priority, plain};

// A setup: document 01, "Setting up a run". C has this struct, so the policy is a number.
#[repr(C)]
#[derive(Clone, Copy)]
pub struct Setup {
    pub policy: u32,
    pub count: u32,
    pub slice: u32,
    pub priority: [u8; 32],
}

impl Setup {
    // The setup of the run that a refused setup gives.
    pub fn plain() -> Setup
        ensures { result ≡ plain }
    {
        Setup {
            policy: 1,
            count: 1,
            slice: 0,
            priority: [0; 32],
        }
    }

    // Whether the policy is priority; else it is round robin. The policy is a number here, as C has it.
    pub fn is_priority(&self) -> bool
        ensures { result ≡ is_priority self.now }
    {
        self.policy == 1
    }
}

// A request: "requests known by time, task and amount".
#[derive(Clone, Copy)]
pub struct Request {
    pub time: u32,
    pub task: u32,
    pub amount: u32,
}

// The first `queued` entries of the queue's array are the open tasks, in the order in which they were requested or
// have had their turn; the others are 0. `done` holds each task's latest completion, 0 for never. C has this struct, so
// that it was made by a setup and calls (`MadeRun`) is asked by those that need it: any run has a clock and idle ticks, and
// can be set up anew.
#[repr(C)]
#[derive(Clone, Copy)]
pub struct Run {
    pub setup: Setup,
    pub clock: u32,
    pub idle: u32,
    pub used: u32,
    pub queued: usize,
    pub queue: [u8; 32],
    pub owed: [u32; 32],
    pub given: [u32; 32],
    pub done: [u32; 32],
}
