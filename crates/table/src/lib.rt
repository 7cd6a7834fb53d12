// The table run over columns: rows requested in order on a fresh run, and then a drain.
// That columns fit their setup is asked between the functions here: the two come together in one call.
#![tactic(auto)]

ghost use Rattle.std.specs.Prelude.{◌≡◌, ◌≤◌, ◌<◌, length};
ghost use Rattle.requests.specs.Columns.{ColumnsTabled};
ghost use Rattle.setups.specs.Judging.{asked_by};
ghost use Rattle.table.specs.Numbers.{table_refusal_number, table_refusal_place};
ghost use Rattle.table.specs.Answers.{AnswersTable};

use requests::{ColumnRefusal, Columns};
use rows::RowRefusal;
use rule::Setup;
use setups::{Asked, SetupRefusal};

// Why a table is refused: by its setup, by its columns, or at a row.
#[derive(Clone, Copy, Debug, PartialEq, Eq)]
pub enum TableRefusal {
    Setup(SetupRefusal),
    Columns(ColumnRefusal),
    Row(RowRefusal),
}

impl TableRefusal {
    // The refusal's number.
    pub fn number(self) -> u32
        ensures { result ≡ table_refusal_number self }
    {
        match self {
            TableRefusal::Setup(refusal) => refusal.into(),
            TableRefusal::Columns(refusal) => refusal.into(),
            TableRefusal::Row(at) => at.refusal.into(),
        }
    }

    // The row, counted from 1, where a row is at fault; else 0.
    pub fn place(self) -> u32
        ensures { result ≡ table_refusal_place self }
    {
        match self {
            TableRefusal::Setup(_) => 0,
            TableRefusal::Columns(_) => 0,
            TableRefusal::Row(at) => at.row,
        }
    }
}

impl From<SetupRefusal> for TableRefusal {
    ghost use Rattle.table.specs.declared.TableRefusal.TheVariants.{Setup};

    ghost from_gives = { λ refusal e. e ≡ Setup refusal };

    fn from(refusal: SetupRefusal) -> TableRefusal {
        TableRefusal::Setup(refusal)
    }
}

impl From<ColumnRefusal> for TableRefusal {
    ghost use Rattle.table.specs.declared.TableRefusal.TheVariants.{Columns};

    ghost from_gives = { λ refusal e. e ≡ Columns refusal };

    fn from(refusal: ColumnRefusal) -> TableRefusal {
        TableRefusal::Columns(refusal)
    }
}

impl From<RowRefusal> for TableRefusal {
    ghost use Rattle.table.specs.declared.TableRefusal.TheVariants.{Row};

    ghost from_gives = { λ refusal e. e ≡ Row refusal };

    fn from(refusal: RowRefusal) -> TableRefusal {
        TableRefusal::Row(refusal)
    }
}

// The rows of an accepted setup and of columns that fit, with this many notes: one for each row and one more.
fn run_with<const NOTES: usize>(
    setup: Setup,
    columns: Columns<'_>,
    res: &mut [u32],
) -> Result<u32, TableRefusal>
    requires tabled { ColumnsTabled setup columns (length res.old) }
    requires noted { length columns.times.now < NOTES }
    requires few { NOTES ≤ 1_025 }
    ensures { AnswersTable setup columns.entry res.old result res.new }
{
    let mut noted = [0; NOTES];
    let ran = rows::run_rows(setup, columns, &mut noted)?;
    rows::put_result(columns.tasks, &ran, &noted, res);
    Ok(ran.end)
}

// The rows of an accepted setup and of columns that fit.
fn run_table(setup: Setup, columns: Columns<'_>, res: &mut [u32]) -> Result<u32, TableRefusal>
    requires { ColumnsTabled setup columns (length res.old) }
    ensures { AnswersTable setup columns.entry res.old result res.new }
{
    // The notes are in fixed memory, and to clear those for 1,024 rows takes 4,000 instructions, as many as 20 rows: short tables have shorter ones.
    if columns.times.len() < 65 {
        run_with::<65>(setup, columns, res)
    } else {
        run_with::<1025>(setup, columns, res)
    }
}

// The table run: each row's completion in the result column, and the end; or a refusal, and the column as it was. Any
// numbers and any lengths are taken.
pub fn table(wanted: Asked<'_>, columns: Columns<'_>, res: &mut [u32]) -> Result<u32, TableRefusal>
    ensures { AnswersTable (asked_by wanted.entry) columns.entry res.old result res.new }
{
    let setup = setups::judged_setup(wanted)?;
    requests::column_refusal(
        columns.times.len(),
        columns.tasks.len(),
        columns.amounts.len(),
        res.len(),
    )?;
    run_table(setup, columns, res)
}
