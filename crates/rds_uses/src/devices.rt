//! Facts that a user of a source or a sink relies on, whatever device it reads or writes.
ghost use Rattle.std.specs.{Prelude.◌≡◌, Prelude.◌+◌, Prelude.◌<◌, Prelude.◌≤◌, Prelude.◌^◌, Prelude.IfOk, Prelude.OnErr, Prelude.OnOk, Prelude.Ok, Prelude.take, Prelude.length, Io.KnownBytes.Appends, Io.KnownBytes.IsAtEnd, Io.KnownBytes.Keeps};

use rds_tool::{Failed, Sink, Source};

/// How many bytes a read gave, or that it failed. None of some room says that no byte is left. A read that fails is counted, and no other.
pub fn counted_read<S: Source>(reader: &mut S, buf: &mut [u8; 4]) -> (Result<usize, Failed>, u64)
    requires { S.failed reader.old < 2 ^ 63 }
    ensures within { IfOk result.0 (λ count. count ≤ 4) }
    ensures end { result.0 ≡ Ok 0 → IsAtEnd (S.remaining reader.new) }
    ensures counted { OnErr result.0 (result.1 ≡ S.failed reader.old + 1) }
    ensures others { OnOk result.0 (result.1 ≡ S.failed reader.old) }
{
    (reader.read(buf), reader.failures())
}

/// A write appends some bytes. A write that fails, or takes no byte of some, is counted, and no other.
pub fn counted_write<K: Sink>(writer: &mut K, bytes: &[u8]) -> (Result<usize, Failed>, u64)
    requires { K.failed writer.old < 2 ^ 63 }
    ensures within { IfOk result.0 (λ count. count ≤ length bytes.now) }
    ensures taken { IfOk result.0 (λ count. Appends (K.contents writer.old) (K.contents writer.new) (take count bytes.now)) }
    ensures counted { OnErr result.0 (result.1 ≡ K.failed writer.old + 1) }
    ensures none { result.0 ≡ Ok 0 → 0 < length bytes.now → result.1 ≡ K.failed writer.old + 1 }
    ensures others { IfOk result.0 (λ count. 0 < count → result.1 ≡ K.failed writer.old) }
{
    (writer.write(bytes), writer.failures())
}

/// A flush writes nothing more, and is counted if it fails.
pub fn counted_flush<K: Sink>(writer: &mut K) -> (Result<(), Failed>, u64)
    requires { K.failed writer.old < 2 ^ 63 }
    ensures same { Keeps (K.contents writer.old) (K.contents writer.new) }
    ensures counted { OnErr result.0 (result.1 ≡ K.failed writer.old + 1) }
    ensures others { OnOk result.0 (result.1 ≡ K.failed writer.old) }
{
    (writer.flush(), writer.failures())
}
