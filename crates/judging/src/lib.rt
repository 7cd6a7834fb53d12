// The desk's log form: judging the bytes of a log. What a log is judged to be is said in specs/.
#![tactic(auto)]

ghost use Rattle.std.specs.Prelude.{◌≡◌};
ghost use Rattle.setups.specs.Judging.{asked_by};
ghost use Rattle.judging.specs.Blocks.{block, length_fits, setup_in_lem};
ghost use Rattle.judging.specs.Numbers.{log_number, log_block};
ghost use Rattle.judging.specs.Log.{told, judged, Reads};
ghost use Rattle.judging.specs.declared.LogRefusal.TheVariants.{WrongSetup};

use search::{asked_in, judge_blocks};
use setups::{Asked, SetupRefusal};

mod search; // search.rt: the first refusal of the blocks

// Why a log is refused: 30 to 33, and 1 to 4 of the setup in block 0; 34 where it is asked for a record block that it
// does not have.
#[derive(Clone, Copy, Debug, PartialEq, Eq)]
pub enum LogRefusal {
    WrongLength,
    WrongCheck { block: usize },
    WrongPlace { block: usize },
    WrongLayout { block: usize },
    WrongSetup(SetupRefusal),
    NoSuchBlock,
}

impl LogRefusal {
    // The refusal's number.
    pub fn number(self) -> u32
        ensures { result ≡ log_number self }
    {
        match self {
            LogRefusal::WrongLength => 30,
            LogRefusal::WrongCheck { .. } => 31,
            LogRefusal::WrongPlace { .. } => 32,
            LogRefusal::WrongLayout { .. } => 33,
            LogRefusal::WrongSetup(refusal) => u32::from(refusal),
            LogRefusal::NoSuchBlock => 34,
        }
    }

    // The block of 31 to 33, else 0.
    pub fn block(self) -> usize
        ensures { result ≡ log_block self }
    {
        match self {
            LogRefusal::WrongCheck { block }
            | LogRefusal::WrongPlace { block }
            | LogRefusal::WrongLayout { block } => block,
            _ => 0,
        }
    }
}

impl From<SetupRefusal> for LogRefusal {
    ghost from_gives = { λ refusal log. log ≡ WrongSetup refusal };

    fn from(refusal: SetupRefusal) -> LogRefusal {
        LogRefusal::WrongSetup(refusal)
    }
}

// Whether a log has 1 to 26 whole blocks.
#[tactic(auto, unfolding(crate::specs::Blocks::length_fits))]
fn length_right(log: &[u8]) -> bool
    ensures { result ≡ length_fits log.now }
{
    log.len() % 512 == 0 && (1..=26).contains(&(log.len() / 512))
}

// Judges a log: whether it is accepted, else the first refusal.
pub fn judge(log: &[u8]) -> Result<(), LogRefusal>
    ensures { told result ≡ judged log.now }
{
    if !length_right(log) {
        return Err(LogRefusal::WrongLength);
    }
    judge_blocks(log, log.len() / 512)
}

// The setup that an accepted log asks for.
pub fn setup_asked(log: &[u8]) -> Asked<'_>
    requires { Reads log.now }
    ensures { asked_by result ≡ setup_in_lem (block log.now 0) }
{
    asked_in(&log[..512])
}
