// Fills a buffer from a reader.
#![tactic(auto)]

ghost use Rattle.std.specs.Prelude.{◌≡◌, IfOk, IfSome, length, take};
ghost use Rattle.std.specs.Io.{ReadsAtMost};
ghost use Rattle.std.specs.Io.KnownBytes.{Consumes};

use std::io;
use std::io::Read;

// Reads until the buffer is full or the input ends, and answers how many bytes stand at its start: those that the reader
// had first, as many as fit.
pub fn read_full<R: Read>(from: &mut R, buf: &mut [u8]) -> io::Result<usize>
    ensures bound { ReadsAtMost result buf.new }
    ensures bytes { IfOk result (λ n. IfSome (R.remaining from.old)
        (λ bytes. take n buf.new ≡ take (length buf.new) bytes)) }
    ensures rest { IfOk result (λ n.
        Consumes (R.remaining from.old) (R.remaining from.new) (take n buf.new)) }
{
    // How much a read gives is the reader's to say; and `read_exact` would fail where the input ends early.
    let mut done = 0;
    while done < buf.len() {
        let n = from.read(&mut buf[done..])?;
        if n == 0 {
            break;
        }
        done += n;
    }
    Ok(done)
}
