// The reader of a log: it stays on the caller's bytes and knows its next record. The work is done by `places`, on the
// bytes and two numbers; here stands the struct that holds them.
#![tactic(auto)]

ghost use Rattle.std.specs.Prelude.{◌≡◌};
ghost use Rattle.std.specs.Iterator.{at_most};
ghost use Rattle.places.specs.Places.{taken_at, Stands};
ghost use Rattle.reader.specs.Reading.{OpenedOn, Standing, taken_by, setup_by, NextIs, rows_left, FirstOf};

use judging::LogRefusal;
use places::{found_at, setup_at, start_of, take_at};
use rule::{Request, Setup};

// A reader on the caller's log, before record `record` of block `block`. That it stands at a place of the log is asked by
// its methods and is no ghost field: `reader_on` and `reader_past` of specs/ make readers of any bytes.
#[derive(Clone, Copy)]
pub struct Reader<'a> {
    pub log: &'a [u8],
    pub block: usize,
    pub record: usize,
}

impl<'a> Reader<'a> {
    // The next record, or that there is none; the reader stays.
    pub fn peek(&self) -> Option<Request>
        requires { Standing self.now }
        ensures { result ≡ (taken_by self.now).found }
    {
        found_at(self.log, self.block, self.record)
    }

    // The setup of the log that the reader stands on; of a refused log, one plain setup.
    pub fn setup(&self) -> Setup
        requires { Standing self.now }
        ensures { result ≡ setup_by self.now }
    {
        setup_at(self.log, self.block, self.record)
    }
}

// The records from the reader's place on. `next` passes a record; after the last there is none, and the reader stays.
impl<'a> Iterator for Reader<'a> {
    type Item = Request;

    ghost can_next = { Standing };

    ghost next_gives = { NextIs };

    ghost remaining = { λ reader. at_most (rows_left reader) };

    fn next(&mut self) -> Option<Request> {
        let taken = take_at(self.log, self.block, self.record);
        self.block = taken.block;
        self.record = taken.record;
        taken.found
    }
}

// What a log is judged to be, and a reader on it. There is a reader on a refused log too, which finds no record.
#[derive(Clone, Copy)]
pub struct Opened<'a> {
    pub verdict: Result<(), LogRefusal>,
    pub reader: Reader<'a>,
}

// Opens a log: judges it whole. On a refused log the reader finds no record.
pub fn open_log(log: &[u8]) -> Opened<'_>
    ensures { OpenedOn log.entry result }
{
    let start = start_of(log);
    Opened {
        verdict: start.verdict,
        reader: Reader {
            log,
            block: start.block,
            record: 0,
        },
    }
}

// The first record of a log, or that there is none, or why the log is refused.
pub fn first_row(log: &[u8]) -> Result<Option<Request>, LogRefusal>
    ensures { FirstOf log.now result }
{
    let opened = open_log(log);
    opened.verdict?;
    Ok(opened.reader.peek())
}
