//! A device that cannot be taken out of its history.
ghost use Rattle.std.specs.Prelude.{◌≡◌};

use rds_tool::{Failed, Sink, Source};

/// A reader or a writer that this module alone can reach into, and that it never gives back. So all bytes that go
/// through the device from here on are in its history.
#[derive(Drop)]
pub struct Sealed<D> {
    device: D,
}

impl<D> Sealed<D> {
    pub fn new(device: D) -> Sealed<D>
        ensures { result.device ≡ device }
    {
        Sealed { device }
    }
}

impl<S: Source> Source for Sealed<S> {
    ghost remaining = { λ sealed. S.remaining sealed.device };

    ghost given = { λ sealed. S.given sealed.device };

    ghost has_ended = { λ sealed. S.has_ended sealed.device };

    ghost failed = { λ sealed. S.failed sealed.device };

    fn read(&mut self, buf: &mut [u8]) -> Result<usize, Failed> {
        self.device.read(buf)
    }

    fn failures(&self) -> u64 {
        self.device.failures()
    }
}

impl<K: Sink> Sink for Sealed<K> {
    ghost contents = { λ sealed. K.contents sealed.device };

    ghost is_flushed = { λ sealed. K.is_flushed sealed.device };

    ghost failed = { λ sealed. K.failed sealed.device };

    fn write(&mut self, bytes: &[u8]) -> Result<usize, Failed> {
        self.device.write(bytes)
    }

    fn flush(&mut self) -> Result<(), Failed> {
        self.device.flush()
    }

    fn failures(&self) -> u64 {
        self.device.failures()
    }
}
