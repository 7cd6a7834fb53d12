// The places of a log, each a block's number and a record's: what stands there and which place is after it, the
// setup, and where reading begins. All of it takes the caller's bytes and two numbers, which `reader::Reader` holds:
// document 01, "Language forms by place", wants slice and numbers here and the struct there.
#![tactic(auto)]

ghost use Rattle.std.specs.Prelude.{◌≡◌};
ghost use Rattle.places.specs.Places.{taken_at, setup_at_lem, Stands, Begins};

use judging::{LogRefusal, judge};
use logs::{Log, record_in};
use rule::{Request, Setup};
use words::word_at;

// What stands at a place of a log, if anything does, and the place after it, which is there in both cases.
#[derive(Clone, Copy)]
pub struct Taken {
    pub found: Option<Request>,
    pub block: usize,
    pub record: usize,
}

// The record at a place and the place after it; after the last, that there is none, and the same place.
pub fn take_at(log: &[u8], block: usize, record: usize) -> Taken
    requires { Stands log.now block «record» }
    ensures { result ≡ taken_at log.now block «record» }
{
    let none = Taken {
        found: None,
        block,
        record,
    };
    if block == 0 || log.len() / 512 <= block {
        return none;
    }
    if word_at(log, 512 * block + 4) as usize <= record {
        return none; // after the last
    }
    let place = 512 * block + 8 + 12 * record;
    let found = Some(record_in(&log[place..place + 12]));
    if record == 40 {
        return Taken {
            found,
            block: block + 1,
            record: 0, // the first of that block
        };
    }
    Taken {
        found,
        record: record + 1,
        ..none
    }
}

// The record at a place, or that there is none.
pub fn found_at(log: &[u8], block: usize, record: usize) -> Option<Request>
    requires { Stands log.now block «record» }
    ensures { result ≡ (taken_at log.now block «record»).found }
{
    take_at(log, block, record).found
}

// The setup of the log that a reader at a place stands on, the same at each record; of a refused log, one plain
// setup.
pub fn setup_at(log: &[u8], block: usize, _record: usize) -> Setup
    requires { Stands log.now block _record }
    ensures { result ≡ setup_at_lem log.now block }
{
    if block == 0 {
        return Setup::plain();
    }
    Log { bytes: log }.setup()
}

// What a log is judged to be, and the block at which its reading begins: a refused log has one too.
#[derive(Clone, Copy)]
pub struct Begun {
    pub verdict: Result<(), LogRefusal>,
    pub block: usize,
}

// Judges the whole log. Reading begins at block 1, or at block 0, which has no records, where the log is refused.
pub fn start_of(log: &[u8]) -> Begun
    ensures { Begins log.now result }
{
    let verdict = judge(log);
    match verdict {
        Ok(()) => Begun { verdict, block: 1 },
        Err(_) => Begun { verdict, block: 0 },
    }
}
