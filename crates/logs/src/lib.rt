// The desk's log form: reading the records of a log that was accepted. What its setup and rows are is said in specs/.
#![tactic(auto)]

ghost use Rattle.std.specs.Prelude.{◌≡◌, length, IfOk};
ghost use Rattle.judging.specs.Log.{told, judged, Reads};
ghost use Rattle.logs.specs.Records.{record_in_lem, setup_of_lem, asked_times, row_at, found, block_asked, stretch};

use judging::{LogRefusal, judge, setup_asked};
use rule::{Request, Setup};
use setups::judged_setup;
use words::word_at;

// The record in the first 12 bytes: "time, task, amount, a word each".
#[tactic(auto, unfolding(crate::specs::Records::record_in_lem))]
pub fn record_in(bytes: &[u8]) -> Request
    ensures { result ≡ record_in_lem bytes.now }
{
    Request {
        time: word_at(bytes, 0),
        task: word_at(bytes, 4),
        amount: word_at(bytes, 8),
    }
}

// Why a record block may not be asked for: the log's own refusal, else that it has no such block.
#[tactic(auto, unfolding(crate::specs::Records::block_asked))]
pub fn block_refusal(log: &[u8], block: usize) -> Result<(), LogRefusal>
    ensures { told result ≡ block_asked log.now block }
{
    judge(log)?;
    if !(1..log.len() / 512).contains(&block) {
        return Err(LogRefusal::NoSuchBlock);
    }
    Ok(())
}

// The used records of a record block, as that stretch of the log; an empty part where `block_refusal` refuses.
#[tactic(auto, using(crate::proofs::Asking::given_room))]
pub fn block_records(log: &[u8], block: usize) -> &[u8]
    ensures { result.now ≡ stretch log.now block }
{
    match block_refusal(log, block) {
        Ok(()) => {
            let from = 512 * block + 8;
            let to = from + 12 * (word_at(log, 512 * block + 4) as usize);
            &log[from..to]
        }
        Err(_) => &log[..0],
    }
}

// A log that was judged, and nothing was refused.
#[derive(Clone, Copy)]
pub struct Log<'a> {
    pub bytes: &'a [u8],
    ghost reads: { Reads bytes.now },
}

impl<'a> Log<'a> {
    // Judges a log.
    pub fn judged(bytes: &'a [u8]) -> Result<Log<'a>, LogRefusal>
        ensures verdict { told result ≡ judged bytes.now }
        ensures log { IfOk result (λ log. log.bytes ≡ bytes.entry) }
    {
        judge(bytes)?;
        Ok(Log { bytes })
    }

    // The log's setup.
    pub fn setup(self) -> Setup
        ensures { result ≡ setup_of_lem self.entry.bytes.now }
    {
        judged_setup(setup_asked(self.bytes)).unwrap()
    }

    // How many records the log has.
    pub fn record_count(self) -> usize
        ensures { result ≡ length (asked_times self.entry.bytes.now) }
    {
        let blocks = self.bytes.len() / 512;
        if blocks < 2 {
            return 0;
        }
        let last = blocks - 1;
        41 * (last - 1) + word_at(self.bytes, 512 * last + 4) as usize
    }

    // Row `i` of the log, counted from 0, or that there is none.
    #[tactic(auto, using(crate::proofs::Rows::row_inside))]
    pub fn record_at(self, i: usize) -> Option<Request>
        ensures { result ≡ found self.entry.bytes.now i }
    {
        if self.record_count() <= i {
            return None;
        }
        let place = 512 * (1 + i / 41) + 8 + 12 * (i % 41);
        Some(record_in(&self.bytes[place..place + 12]))
    }

    // Row `i` of the log, counted from 0; a row of zeros past the last.
    pub fn row_at(self, i: usize) -> Request
        ensures { result ≡ row_at self.entry.bytes.now i }
    {
        self.record_at(i).unwrap_or(Request {
            time: 0,
            task: 0,
            amount: 0,
        })
    }
}
