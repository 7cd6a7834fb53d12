// Judging a call before the clock moves, refusals 10 to 13, and a table's columns, 20 to 22: one place for runs and
// tables.
#![tactic(auto)]

ghost use Rattle.std.specs.Prelude.{◌≡◌};
ghost use Rattle.lists.specs.Lists.{at};
ghost use Rattle.rule.specs.Calls.{advance_refusal};
ghost use Rattle.rule.specs.Table.{column_refusal_lem};
ghost use Rattle.requests.specs.Early.{early_refusal_lem};
ghost use Rattle.requests.specs.Numbers.{call_refusal_number, call_number, column_refusal_number, column_number};

use rule::Request;

// Why a call is refused: refusals 10 to 14.
#[derive(Clone, Copy, Debug, PartialEq, Eq)]
pub enum CallRefusal {
    TimePastLimit = 10,
    TimeBeforeClock = 11,
    NoSuchTask = 12,
    WrongAmount = 13,
    StillOpen = 14,
}

impl From<CallRefusal> for u32 {
    ghost from_gives = { λ refusal number. number ≡ call_refusal_number refusal };

    fn from(refusal: CallRefusal) -> u32 {
        refusal as u32
    }
}

// The refusal of a time by 10 or 11, if it is refused.
#[tactic(auto, using(std::proofs::lemmas::Bool::Decides::nat_tests), unfolding(rule::specs::Calls::advance_refusal))]
pub fn time_refusal(clock: u32, time: u32) -> Result<(), CallRefusal>
    ensures { call_number result ≡ advance_refusal clock time }
{
    if 4_000_000_000 < time {
        return Err(CallRefusal::TimePastLimit);
    }
    if time < clock {
        return Err(CallRefusal::TimeBeforeClock);
    }
    Ok(())
}

// The refusal of a request by 10 to 13, if it is refused.
#[tactic(auto, using(std::proofs::lemmas::Bool::Decides::nat_tests, crate::proofs::Early::time_first, crate::proofs::Early::time_passed), unfolding(crate::specs::Early::early_refusal_lem, lists::specs::Lists::within))]
pub fn early_refusal(count: u32, clock: u32, request: Request) -> Result<(), CallRefusal>
    ensures { call_number result ≡ early_refusal_lem count clock request.time request.task request.amount }
{
    time_refusal(clock, request.time)?;
    if count <= request.task {
        return Err(CallRefusal::NoSuchTask);
    }
    if request.amount < 1 || 1_000_000 < request.amount {
        return Err(CallRefusal::WrongAmount);
    }
    Ok(())
}

// The columns of a table.
#[derive(Clone, Copy)]
pub struct Columns<'a> {
    pub times: &'a [u32],
    pub tasks: &'a [u32],
    pub amounts: &'a [u32],
}

// Entry i of a column, 0 past its end.
fn entry(column: &[u32], i: usize) -> u32
    ensures { result ≡ at column.now i }
{
    column.get(i).copied().unwrap_or(0)
}

impl Columns<'_> {
    ghost use Rattle.requests.specs.Columns.{row_of};

    // The request in row i, from 0. An entry past the end of a column counts as 0.
    pub fn row(self, i: usize) -> Request
        ensures { result ≡ row_of self.entry i }
    {
        Request {
            time: entry(self.times, i),
            task: entry(self.tasks, i),
            amount: entry(self.amounts, i),
        }
    }
}

// Why a table's columns are refused: refusals 20 to 22.
#[derive(Clone, Copy, Debug, PartialEq, Eq)]
pub enum ColumnRefusal {
    UnequalColumns = 20,
    TooManyRows = 21,
    ShortResult = 22,
}

impl From<ColumnRefusal> for u32 {
    ghost from_gives = { λ refusal number. number ≡ column_refusal_number refusal };

    fn from(refusal: ColumnRefusal) -> u32 {
        refusal as u32
    }
}

// The refusal of columns by their lengths, if they are refused; any four numbers are taken, more than slices can have.
#[tactic(auto, using(std::proofs::lemmas::Bool::Decides::nat_tests), unfolding(rule::specs::Table::column_refusal_lem))]
pub fn column_refusal(
    times: usize,
    tasks: usize,
    amounts: usize,
    room: usize,
) -> Result<(), ColumnRefusal>
    ensures { column_number result ≡ column_refusal_lem times tasks amounts room }
{
    if tasks != times || amounts != times {
        return Err(ColumnRefusal::UnequalColumns);
    }
    if 1_024 < times {
        return Err(ColumnRefusal::TooManyRows);
    }
    if room < times {
        return Err(ColumnRefusal::ShortResult);
    }
    Ok(())
}
