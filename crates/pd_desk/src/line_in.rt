//! Lines of a reader, one at a time.

ghost use Rattle.std.specs.Prelude.{◌≡◌, ◌≤◌, [], MatchResult};
ghost use Rattle.pd_bench.specs.Session.{CountsFault};
ghost use Rattle.pd_desk.specs.Taking.{StopsAt, TakingLine, Took};

use pd_bench::Pending;
use pd_device::{BenchFault, TextIn};

/// The most bytes of an edit script.
const LIMIT: usize = 16_777_216;

/// Takes in the next line, a byte at a time, so that none of the line after it is read. True where a line feed ended it,
/// and false at the end of the reader; counts the bytes that were read.
///
/// # Errors
/// `ReadFailed` where the reader failed, and `ReaderTooLong` where more than 16,777,216 bytes were read before.
pub(crate) fn take_line<R: TextIn>(
    reader: &mut R,
    line: &mut Pending,
    total: &mut usize,
) -> Result<bool, BenchFault>
    requires empty { line.old ≡ [] }
    requires few { total.old ≤ 16777217 }
    ensures line { MatchResult result (λ is_ended. Took is_ended (R.left reader.old) (R.left reader.new) total.old total.new line.new)
        (λ fault. TakingLine (R.left reader.old) (R.left reader.new) total.old total.new line.new × StopsAt fault total.new) }
    ensures counts { CountsFault result (R.failures reader.old) (R.failures reader.new) 0 0 }
{
    let mut space = [0u8; 1];
    while *total <= LIMIT {
        let Ok(count) = reader.read(&mut space) else {
            return Err(BenchFault::ReadFailed);
        };
        if count == 0 {
            return Ok(false);
        }
        *total += 1;
        if space[0] == b'\n' {
            line.end();
            return Ok(true);
        }
        line.push(space[0]);
    }
    Err(BenchFault::ReaderTooLong)
}
