// The work of the printing program: from the bytes that were read to the bytes that are written.
#![tactic(auto)]

ghost use Rattle.std.specs.Prelude.{◌≡◌, ◌≤◌, length, take};
ghost use Rattle.rule.specs.Table.{most_rows};
ghost use Rattle.laws.specs.Rows.{Tabled};
ghost use Rattle.logs.specs.Records.{asked_times};
ghost use Rattle.cells.specs.Writes.{Puts};
ghost use Rattle.report.specs.Filled.{Filled};
ghost use Rattle.report.specs.Report.{rows_printed, report_text};

use logs::Log;
use requests::Columns;
use rule::Setup;
use setups::Asked;

// The rows of a log in columns, in fixed memory: there is room for as many as a log may have.
#[derive(Drop)]
struct Rows {
    times: [u32; 1024],
    tasks: [u32; 1024],
    amounts: [u32; 1024],
    count: usize,
    ghost few: { count ≤ 1_024 },
}

impl Rows {
    // The rows of a log take the place of these.
    fn fill(&mut self, log: Log)
        ensures all { self.new.count ≡ length (asked_times log.entry.bytes.now) }
        ensures filled { Filled log.entry.bytes.now self.new.count self.new.times self.new.tasks self.new.amounts }
    {
        let count = log.record_count();
        for i in 0..count {
            let row = log.row_at(i);
            self.times[i] = row.time;
            self.tasks[i] = row.task;
            self.amounts[i] = row.amount;
        }
        self.count = count;
    }

    // The columns of these rows, without the room behind them.
    fn columns(&self) -> Columns<'_>
        ensures times { result.times.now ≡ take self.now.count self.now.times }
        ensures tasks { result.tasks.now ≡ take self.now.count self.now.tasks }
        ensures amounts { result.amounts.now ≡ take self.now.count self.now.amounts }
    {
        Columns {
            times: &self.times[..self.count],
            tasks: &self.tasks[..self.count],
            amounts: &self.amounts[..self.count],
        }
    }
}

// The table of rows in columns, run and put.
fn put_run(setup: Setup, columns: Columns, out: &mut [u8; 65536]) -> usize
    requires { Tabled setup (length columns.times.now) (length columns.tasks.now)
        (length columns.amounts.now) most_rows }
    ensures { Puts out.old out.new
        (rows_printed setup columns.entry.times.now columns.entry.tasks.now columns.entry.amounts.now) result }
{
    let mut done = [0; 1024];
    match table::table(Asked::from(&setup), columns, &mut done) {
        Ok(end) => text::put_table(columns, &done[..columns.times.len()], end, out),
        Err(refusal) => text::put_refused(refusal.number(), refusal.place(), out),
    }
}

// The table of a log, run and put.
fn put_log(log: Log, out: &mut [u8; 65536]) -> usize
    ensures { Puts out.old out.new (report_text log.entry.bytes.now) result }
{
    let mut rows = Rows {
        times: [0; 1024],
        tasks: [0; 1024],
        amounts: [0; 1024],
        count: 0,
    };
    rows.fill(log);
    put_run(log.setup(), rows.columns(), out)
}

// Puts all that is printed for a log at the start of out, and answers how much it is. Any bytes of any length are
// taken.
pub fn report(log: &[u8], out: &mut [u8; 65536]) -> usize
    ensures { Puts out.old out.new (report_text log.now) result }
{
    match Log::judged(log) {
        Ok(log) => put_log(log, out),
        Err(refusal) => text::put_refused(refusal.number(), refusal.block() as u32, out),
    }
}
