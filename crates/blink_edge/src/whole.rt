// A source read to its end, and a piece given whole.
ghost use Rattle.std.specs.Prelude.{◌≡◌, ◌≢◌, ◌≤◌, ◌<◌, ◌+◌, List, [], ℕ, length, take, OnOk, OnErr, Ok, Err, IsOk};
ghost use Rattle.std.specs.Io.KnownBytes.{Appends, Consumes, IsAtEnd};
ghost use Rattle.blink_edge.specs.Causes.{HasCause, Rose, last_count};

use crate::{Failed, Sink, Source};
use thiserror::Error;

/// How many bytes are asked of a source at a time.
const PIECE: usize = 16384;

/// How far a source was read.
#[derive(Clone, Copy, Debug, PartialEq, Eq)]
pub enum Taken {
    /// To its end.
    Whole,
    /// To one byte past the limit.
    Long,
}

/// Why a source was not read.
#[derive(Clone, Copy, Debug, PartialEq, Eq, Error)]
pub enum ReadError {
    /// The source failed, and its count of faults rose or stands at its last value.
    #[error("the source failed")]
    Failed,
    /// There was not enough memory.
    #[error("not enough memory")]
    Memory,
}

/// Gives all the bytes to a sink. At [`Failed`] a proper prefix of them was given. The first fault is
/// answered: all bytes are given only where the count of faults stays. It takes no memory.
pub fn write_all<W: Sink>(sink: &mut W, bytes: &[u8]) -> Result<(), Failed>
    ensures all { OnOk result (Appends (W.given sink.old) (W.given sink.new) bytes.now) }
    ensures part { OnErr result ((k : ℕ) × (k < length bytes.now) × Appends (W.given sink.old) (W.given sink.new) (take k bytes.now)) }
    ensures cause { HasCause (W.faults sink.old) (W.faults sink.new) result }
    ensures quiet { OnOk result (W.faults sink.new ≡ W.faults sink.old) }
    ensures sure { length bytes.now ≤ W.sure_room sink.old
        → IsOk result × (W.sure_room sink.old ≤ W.sure_room sink.new + length bytes.now) × (W.faults sink.new ≡ W.faults sink.old) }
{
    let mut at = 0;
    while at < bytes.len() {
        at += sink.give(&bytes[at..])?;
    }
    Ok(())
}

/// Reads a source to its end, or to one byte past `limit` bytes, into an empty `into`.
///
/// [`Taken::Whole`] read to the end, and `into` holds all bytes, at most `limit`. [`Taken::Long`] comes exactly where one
/// more was taken; `into` holds them too. After an error `into` may hold anything, and [`ReadError::Failed`] comes only
/// where at most `limit` bytes were taken. The first fault is answered: any other answer keeps the count of faults.
pub fn read_all<R: Source>(
    source: &mut R,
    limit: u64,
    into: &mut Vec<u8>,
) -> Result<Taken, ReadError>
    requires empty { into.old.items ≡ [] }
    requires below_end { limit < last_count }

    ensures whole { result ≡ Ok Taken.Whole
        → Consumes (R.left source.old) (R.left source.new) into.new.items × IsAtEnd (R.left source.new) × (length into.new.items ≤ limit) }
    ensures long { result ≡ Ok Taken.Long
        → Consumes (R.left source.old) (R.left source.new) into.new.items × (length into.new.items ≡ limit + 1) }
    ensures failed { result ≡ Err ReadError.Failed → Rose (R.faults source.old) (R.faults source.new) }
    ensures part { OnErr result ((taken : List ℕ) × Consumes (R.left source.old) (R.left source.new) taken
        × (length taken ≤ limit + 1) × (result ≡ Err ReadError.Failed → length taken ≤ limit)) }

    ensures quiet { result ≢ Err ReadError.Failed → R.faults source.new ≡ R.faults source.old }
    ensures later { R.faults source.old ≤ R.faults source.new }
    ensures sure { R.never_fails source.old → R.never_fails source.new × (R.faults source.new ≡ R.faults source.old) }
{
    let mut piece = [0u8; PIECE];
    let limit = limit as usize;
    while into.len() <= limit {
        let room = (limit + 1 - into.len()).min(PIECE);
        let count = match source.take(&mut piece[..room]) {
            Ok(count) => count,
            Err(Failed) => return Err(ReadError::Failed),
        };
        if count == 0 {
            return Ok(Taken::Whole);
        }
        if into.extend_from_slice(&piece[..count]).is_err() {
            return Err(ReadError::Memory);
        }
    }
    Ok(Taken::Long)
}
