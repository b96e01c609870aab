// The streams of the system, which tell nothing of their bytes.
ghost use Rattle.std.specs.Prelude.{◌≡◌, ◌≤◌, ◌<◌, ◌+◌, ℕ, List, length, None, is_some, is_err, IfOk, IsOk, IsOkAnd, OnOk, if◌then◌else◌};
ghost use Rattle.std.specs.Io.{ReadsAtMost, WritesAtMost};
ghost use Rattle.std.specs.Io.KnownBytes.{ReadConsumes, WriteAppends};
ghost use Rattle.blink_edge.specs.Causes.{HasCause, next};

use crate::count::one_more;
use crate::{Failed, Sink, Source};
use std::io;
use std::io::{ErrorKind, Read, Write};

// How often a read or a write is made at most, where the system interrupts each.
const MOST_TRIES: u32 = 1_000;

/// A source over a reader, such as standard input. It tells nothing of its bytes, and counts the reader's errors.
#[derive(Drop)]
pub struct StdIn<R> {
    inner: R,
    faults: u64,
}

impl<R> StdIn<R> {
    ghost use Rattle.blink_edge.specs.Streams.{reader_under, source_faults};

    /// A source over this reader, without a fault so far. It takes no memory.
    pub fn new(inner: R) -> Self
        ensures reader { reader_under result ≡ inner }
        ensures fresh { source_faults result ≡ 0 }
    {
        StdIn { inner, faults: 0 }
    }
}

impl<R: Read> Source for StdIn<R> {
    ghost use Rattle.blink_edge.specs.Streams.{reader_under, source_faults};

    ghost left = { λ s. None };

    ghost faults = { source_faults };

    ghost never_fails = { λ s. ⊥ };

    /// Takes what the reader gives. A read that the system interrupts is made again, at most a thousand times; each other
    /// error of the reader is a fault.
    fn take(&mut self, into: &mut [u8]) -> Result<usize, Failed>
        ensures bound { ReadsAtMost result into.new }
        ensures bytes { ReadConsumes None None result into.new }
        ensures told { is_some {T = List ℕ} None ≡ is_some {T = List ℕ} None }
        ensures cause { HasCause (source_faults self.old) (source_faults self.new) result }
        ensures quiet { OnOk result (source_faults self.new ≡ source_faults self.old) }
        ensures sure { ⊥ → IsOk result × ⊥ × (source_faults self.new ≡ source_faults self.old) }

        // The bytes are the reader's, and each of its errors is counted.
        ensures passed { ReadConsumes (R.remaining (reader_under self.old)) (R.remaining (reader_under self.new)) result into.new }
        ensures counted { source_faults self.new ≡ (if is_err result then next (source_faults self.old) else source_faults self.old) }
    {
        match read_again(&mut self.inner, into) {
            Ok(count) => Ok(count),
            Err(_) => {
                self.faults = one_more(self.faults);
                Err(Failed)
            }
        }
    }
}

/// A sink over a writer, such as standard output. It tells nothing of its bytes, and counts the writer's errors and the
/// writes that take none of a piece that isn't empty.
#[derive(Drop)]
pub struct StdOut<W> {
    inner: W,
    faults: u64,
}

impl<W> StdOut<W> {
    ghost use Rattle.blink_edge.specs.Streams.{writer_under, sink_faults};

    /// A sink over this writer, without a fault so far. It takes no memory.
    pub fn new(inner: W) -> Self
        ensures writer { writer_under result ≡ inner }
        ensures fresh { sink_faults result ≡ 0 }
    {
        StdOut { inner, faults: 0 }
    }
}

impl<W: Write> Sink for StdOut<W> {
    ghost use Rattle.blink_edge.specs.Streams.{writer_under, sink_faults};

    ghost given = { λ s. None };

    ghost faults = { sink_faults };

    ghost sure_room = { λ s. 0 };

    /// Gives the writer what it takes. A write that the system interrupts is made again, at most a thousand times; each
    /// other error of the writer is a fault, and so is a write that takes none of a piece that isn't empty.
    fn give(&mut self, bytes: &[u8]) -> Result<usize, Failed>
        ensures bound { WritesAtMost result bytes.now }
        ensures some { IfOk result (λ n. 0 < length bytes.now → 0 < n) }
        ensures bytes { WriteAppends None None result bytes.now }
        ensures told { is_some {T = List ℕ} None ≡ is_some {T = List ℕ} None }
        ensures cause { HasCause (sink_faults self.old) (sink_faults self.new) result }
        ensures quiet { OnOk result (sink_faults self.new ≡ sink_faults self.old) }
        ensures sure { 0 < length bytes.now → length bytes.now ≤ 0 → IsOkAnd result (λ n. 0 ≤ 0 + n) × (sink_faults self.new ≡ sink_faults self.old) }

        // The bytes go to the writer, and each of its errors is counted.
        ensures passed { WriteAppends (W.contents (writer_under self.old)) (W.contents (writer_under self.new)) result bytes.now }
        ensures counted { sink_faults self.new ≡ (if is_err result then next (sink_faults self.old) else sink_faults self.old) }
    {
        if let Ok(count) = write_again(&mut self.inner, bytes)
            && (count > 0 || bytes.is_empty())
        {
            return Ok(count);
        }
        self.faults = one_more(self.faults);
        Err(Failed)
    }
}

// Reads, and again where the system interrupted the read.
fn read_again<R: Read>(reader: &mut R, into: &mut [u8]) -> io::Result<usize>
    ensures bound { ReadsAtMost result into.new }
    ensures bytes { ReadConsumes (R.remaining reader.old) (R.remaining reader.new) result into.new }
{
    for _ in 1..MOST_TRIES {
        match reader.read(into) {
            Err(error) if error.kind() == ErrorKind::Interrupted => {}
            done => return done,
        }
    }
    reader.read(into)
}

// Writes, and again where the system interrupted the write.
fn write_again<W: Write>(writer: &mut W, bytes: &[u8]) -> io::Result<usize>
    ensures bound { WritesAtMost result bytes.now }
    ensures bytes { WriteAppends (W.contents writer.old) (W.contents writer.new) result bytes.now }
{
    for _ in 1..MOST_TRIES {
        match writer.write(bytes) {
            Err(error) if error.kind() == ErrorKind::Interrupted => {}
            done => return done,
        }
    }
    writer.write(bytes)
}
