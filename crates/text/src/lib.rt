// The lines of a table and of a refusal: on a page, and as all that is printed, from the start of a buffer.
#![tactic(auto)]

ghost use Rattle.std.specs.Prelude.{◌≡◌, ◌*◌, length};
ghost use Rattle.cells.specs.Writes.{Puts};
ghost use Rattle.cells.specs.Pages.{Room, Put};
ghost use Rattle.text.specs.Text.{row_line, row_lines, columns_fit_lem, columns_text, refused_line};
ghost use Rattle.text.specs.Inner.{Fit};

use cells::Page;
use requests::Columns;
use rule::Request;

// The line of a row.
fn put_row(page: &mut Page, row: u32, request: Request, done: u32)
    requires { Room 55 page.old }
    ensures { Put 55 page.old page.new (row_line row request.task request.time request.amount done) }
{
    page.put_cell(row, b' ');
    page.put_cell(request.task, b' ');
    page.put_cell(request.time, b' ');
    page.put_cell(request.amount, b' ');
    page.put_cell(done, b'\n');
}

// The lines of all rows, counted from 1.
fn put_rows(page: &mut Page, columns: Columns, done: &[u32])
    requires fit { Fit columns done.now }
    requires room { Room (55 * length columns.tasks.now) page.old }
    ensures { Put (55 * length columns.entry.tasks.now) page.old page.new
        (row_lines columns.entry.tasks.now columns.entry.times.now columns.entry.amounts.now done.now
        (length columns.entry.tasks.now)) }
{
    for (i, &done_at) in done.iter().enumerate() {
        put_row(page, i as u32 + 1, columns.row(i), done_at);
    }
}

// Whether the columns are put: equally long, and few enough for the buffer.
#[tactic(auto, unfolding(crate::specs::Text::columns_fit_lem))]
fn columns_fit(columns: Columns, done: &[u32]) -> bool
    ensures { result ≡ columns_fit_lem (length columns.entry.tasks.now) (length columns.entry.times.now)
        (length columns.entry.amounts.now) (length done.now) }
{
    let rows = columns.tasks.len();
    columns.times.len() == rows
        && columns.amounts.len() == rows
        && done.len() == rows
        && rows <= 1024
}

// All that is printed of a table, at the start of the buffer: the header, the lines of all rows and that of the end.
// Any columns are taken: those of unequal length, or of more than 1,024 rows, are put as no text.
pub fn put_table(columns: Columns, done: &[u32], end: u32, out: &mut [u8; 65536]) -> usize
    ensures { Puts out.old out.new
        (columns_text columns.entry.tasks.now columns.entry.times.now columns.entry.amounts.now done.now end) result }
{
    if !columns_fit(columns, done) {
        return 0;
    }
    let mut page = Page::new(out);
    page.put_all(b"row task asked amount done\n");
    put_rows(&mut page, columns, done);
    page.put_named(b"end ", end, b'\n');
    page.at
}

// The one line of a refusal, at the start of the buffer.
pub fn put_refused(n: u32, p: u32, out: &mut [u8; 65536]) -> usize
    ensures { Puts out.old out.new (refused_line n p) result }
{
    let mut page = Page::new(out);
    page.put_named(b"refused ", n, b' ');
    page.put_named(b"at ", p, b'\n');
    page.at
}
