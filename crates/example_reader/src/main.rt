// The log on standard input, read in three ways: what it is judged to be and its first record; record after record,
// by a reader that is lent to `next`, and on after the last; by record blocks, 0 to 3, each as that stretch of the log.
#![tactic(auto)]

ghost use Rattle.std.specs.Prelude.{◌<◌, IfOk, IsSome};
ghost use Rattle.reader.specs.Reading.{Standing, NextIs, rows_left};

use judging::LogRefusal;
use reader::Reader;
use rule::Request;
use std::{fmt, io};

// A record as a line tells it, or that there is none.
#[derive(Clone, Copy)]
struct Told(Option<Request>);

impl fmt::Display for Told {
    fn fmt<W: fmt::Write>(&self, f: &mut fmt::Formatter<W>) -> fmt::Result {
        match self.0 {
            Some(Request { time, task, amount }) => {
                write!(f, "time {time} task {task} amount {amount}")
            }
            None => write!(f, "none"),
        }
    }
}

// A refusal as a line tells it.
#[derive(Clone, Copy)]
struct Refused(LogRefusal);

impl fmt::Display for Refused {
    fn fmt<W: fmt::Write>(&self, f: &mut fmt::Formatter<W>) -> fmt::Result {
        write!(f, "refused {} at {}", self.0.number(), self.0.block())
    }
}

// What the log is judged to be, and its first record.
fn opening(to: &impl Print, log: &[u8]) -> io::Result<()> {
    match reader::first_row(log) {
        Ok(first) => println!(to; "log: accepted\nfirst record: {}", Told(first)),
        Err(refusal) => println!(to; "log: {}\nfirst record: none", Refused(refusal)),
    }
}

// One step of a reader: the place where it stood, and what it found there; the reader goes on from it.
#[tactic(auto, using(places::proofs::Places::taken_stands))]
fn step(to: &impl Print, reader: &mut Reader) -> io::Result<Option<Request>>
    requires { Standing reader.old }
    ensures taken { IfOk result (λ found. NextIs reader.old found reader.new) }
    ensures stands { IfOk result (λ found. Standing reader.new) }
    ensures fewer { IfOk result (λ found. IsSome found → rows_left reader.new < rows_left reader.old) }
{
    let (block, record) = (reader.block, reader.record);
    let found = reader.next();
    println!(to; "block {block} record {record}: {}", Told(found))?;
    Ok(found)
}

// Steps from the first record until there is none, and two steps more, which find none and stay.
fn records(to: &impl Print, log: &[u8]) -> io::Result<()> {
    let mut reader = reader::open_log(log).reader;
    while step(to, &mut reader)?.is_some() {}
    step(to, &mut reader)?;
    step(to, &mut reader)?;
    Ok(())
}

// The refusal of a record block; or how many bytes its records have, and the first of them.
fn record_block(to: &impl Print, log: &[u8], block: usize) -> io::Result<()> {
    match logs::block_refusal(log, block) {
        Ok(()) => {
            let bytes = logs::block_records(log, block);
            let first = Told(Some(logs::record_in(bytes)));
            println!(to;
                "records of block {block}: {} bytes, the first record {first}",
                bytes.len()
            )
        }
        Err(refusal) => println!(to; "records of block {block}: {}", Refused(refusal)),
    }
}

// At most one byte more than the longest log is read.
fn main(rt: HostRuntime) -> io::Result<()> {
    let mut buffer = [0; 13313];
    let n = intake::read_full(&mut rt.stdin(), &mut buffer)?;
    let log = &buffer[..n];
    opening(&rt, log)?;
    records(&rt, log)?;
    for block in 0..4 {
        record_block(&rt, log, block)?;
    }
    Ok(())
}
