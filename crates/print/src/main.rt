// Reads a log on standard input, at most one byte more than the longest log, and writes all that is printed for it.
#![tactic(auto)]

ghost use Rattle.std.specs.Prelude.{OnOk, IfSome};
ghost use Rattle.std.specs.Io.KnownBytes.{Appends};
ghost use Rattle.report.specs.Report.{report_text};

use std::io;
use std::io::{Read, Write};

// What is printed for all that a reader has goes to a writer, which nothing else does.
fn print_log<R: Read, W: Write>(from: &mut R, to: &mut W) -> io::Result<()>
    ensures { OnOk result (IfSome (R.remaining from.old)
        (λ bytes. Appends (W.contents to.old) (W.contents to.new) (report_text bytes))) }
{
    let mut log = [0; 13313];
    let n = intake::read_full(from, &mut log)?;
    let mut out = [0; 65536];
    let m = report::report(&log[..n], &mut out);
    to.write_all(&out[..m])
}

fn main(rt: HostRuntime) -> io::Result<()> {
    print_log(&mut rt.stdin(), &mut rt.stdout())
}
