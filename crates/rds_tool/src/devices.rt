//! The two ends of a transcription: where bytes come from, and where they go.
ghost use Rattle.std.specs.Prelude.{◌≡◌, ℕ, ◌+◌, ◌++◌, ◌^◌, ◌<◌, ◌≤◌, [], Bool, false, List, Option, Some, length, IfOk};
ghost use Rattle.std.specs.Io.KnownBytes.{Appends, ReadConsumes};
ghost use Rattle.rds_tool.specs.Devices.{answers_end, failures_of_read, known_or_none, moved};

use rds_rows::{Failed, Sink};
use rds_stream::Trace;
use std::io::{Read, Write};
use std::snapshot::Snapshot;

/// A reader that counts its failures and tells its history.
///
/// An implementor says by `given` which bytes it gave, and by `remaining` which are still to come. That is
/// `None` if no contract can name them, as for a file or a pipe.
pub trait Source {
    /// The bytes that reads will give from here on, if they are known.
    ghost remaining: { Self → Option (List ℕ) };

    /// The bytes that reads have given so far.
    ghost given: { Self → List ℕ };

    /// Its last read answered the end.
    ghost has_ended: { Self → Bool };

    /// How many calls have failed.
    ghost failed: { Self → ℕ };

    /// One read: fills the front of `buf` and answers how many bytes that were.
    ///
    /// `Ok(0)` for a buffer that isn't empty is the end of the input.
    fn read(&mut self, buf: &mut [u8]) -> Result<usize, Failed>
        requires { failed self.old < 2 ^ 63 }
        ensures within { IfOk result (λ count. count ≤ length buf.new) }
        ensures bytes { ReadConsumes (remaining self.old) (remaining self.new) result buf.new }
        ensures given { given self.new ≡ given self.old ++ moved result buf.new }
        ensures end { has_ended self.new ≡ answers_end result buf.new }
        ensures counts { failed self.new ≡ failed self.old + failures_of_read result };

    /// How many reads have failed.
    fn failures(&self) -> u64
        ensures { result ≡ failed self.now };
}

/// A source over a reader of std, which knows the bytes to come if that reader does, and those that came at
/// any reader.
///
/// Each error of the reader is a failure, an interruption too.
#[derive(Drop)]
pub struct FromRead<R> {
    reader: R,
    failures: u64,
    history: Trace,
    ended: bool,
}

impl<R: Read> FromRead<R> {
    ghost use Rattle.rds_tool.specs.Ends.{given_by, has_ended, read_failures, reader_under};

    /// The source over this reader, which has not failed yet.
    pub fn new(reader: R) -> FromRead<R>
        ensures reader { reader_under result ≡ reader }
        ensures failures { read_failures result ≡ 0 }
        ensures given { given_by result ≡ [] }
        ensures end { has_ended result ≡ false }
    {
        FromRead {
            reader,
            failures: 0,
            history: Trace::new(),
            ended: false,
        }
    }
}

impl<R: Read> Source for FromRead<R> {
    ghost remaining = { λ source. R.remaining source.reader };

    ghost given = { λ source. source.history.bytes };

    ghost has_ended = { λ source. source.ended };

    ghost failed = { λ source. source.failures };

    fn read(&mut self, buf: &mut [u8]) -> Result<usize, Failed> {
        match self.reader.read(buf) {
            Ok(count) => {
                self.history.note(&buf[..count]);
                self.ended = count == 0 && !buf.is_empty();
                Ok(count)
            }
            Err(_) => {
                self.ended = false;
                count_failure(&mut self.failures);
                Err(Failed)
            }
        }
    }

    fn failures(&self) -> u64 {
        self.failures
    }
}

/// A sink over a writer of std. Its contents are the bytes that the writer held at first, if that writer
/// knows them, and then those that it took since. They are the writer's own bytes if it knows them.
///
/// Each error of the writer is a failure, an interruption too, and so is a write that takes no byte of
/// some.
#[derive(Drop)]
pub struct ToWrite<W: Write> {
    writer: W,
    failures: u64,
    flushed: bool,
    /// The writer at first.
    begun: Snapshot<W>,
    history: Trace,
    ghost tied: { ∥ Appends (W.contents begun.value) (W.contents writer) history.bytes ∥₁ },
}

impl<W: Write> ToWrite<W> {
    ghost use Rattle.rds_tool.specs.Ends.{begun_by, is_flushed, taken_by, write_failures, writer_under};

    /// The sink over this writer, which has not failed yet.
    pub fn new(writer: W) -> ToWrite<W>
        ensures writer { writer_under result ≡ writer }
        ensures failures { write_failures result ≡ 0 }
        ensures taken { taken_by result ≡ [] }
        ensures begun { begun_by result ≡ writer }
        ensures flushed { is_flushed result ≡ false }
    {
        let begun = Snapshot::of(&writer);
        ToWrite {
            writer,
            failures: 0,
            flushed: false,
            begun,
            history: Trace::new(),
        }
    }

    /// The writer underneath.
    pub fn into_inner(self) -> W
        ensures under { result ≡ writer_under self }
        ensures tied { Appends (W.contents (begun_by self)) (W.contents result) (taken_by self) }
    {
        let ToWrite {
            writer,
            failures: _,
            flushed: _,
            begun: _,
            history: _,
        } = self;
        writer
    }
}

impl<W: Write> Sink for ToWrite<W> {
    ghost contents = { λ sink. Some (known_or_none (W.contents sink.begun.value) ++ sink.history.bytes) };

    ghost is_flushed = { λ sink. sink.flushed };

    ghost failed = { λ sink. sink.failures };

    fn write(&mut self, bytes: &[u8]) -> Result<usize, Failed> {
        self.flushed = false;
        match self.writer.write(bytes) {
            Ok(count) => {
                self.history.note(&bytes[..count]);
                if count == 0 && !bytes.is_empty() {
                    count_failure(&mut self.failures);
                }
                Ok(count)
            }
            Err(_) => {
                count_failure(&mut self.failures);
                Err(Failed)
            }
        }
    }

    fn flush(&mut self) -> Result<(), Failed> {
        match self.writer.flush() {
            Ok(()) => {
                self.flushed = true;
                Ok(())
            }
            Err(_) => {
                self.flushed = false;
                count_failure(&mut self.failures);
                Err(Failed)
            }
        }
    }

    fn failures(&self) -> u64 {
        self.failures
    }
}

fn count_failure(failures: &mut u64)
    requires { failures.old < 2 ^ 63 }
    ensures { failures.new ≡ failures.old + 1 }
{
    *failures += 1;
}
