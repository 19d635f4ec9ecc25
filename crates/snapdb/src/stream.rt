//! Input read to its end, and output written to its last byte.

ghost use Rattle.std.specs.Prelude.{◌≡◌, ◌≤◌, ◌<◌, ℕ, List, length, IfOk, IfErr, OnOk, OnErr, IsErrOf};
ghost use Rattle.std.specs.Io.KnownBytes.{Appends, Consumes, IsAtEnd};
ghost use Rattle.page_dev.specs.Faults.{Rose};
ghost use Rattle.page_dev.specs.Sink.{AppendsFront};
ghost use Rattle.snapdb.specs.declared.stream.ReadRefusal.TheVariants.{Failed as ReadFailed, Memory, Long};
ghost use Rattle.snapdb.specs.declared.stream.TheConstants.{LIMIT, PIECE};
ghost use Rattle.page_dev.specs.declared.sink.SinkRefusal.TheVariants.{Failed as SinkFailed};

use page_dev::{Sink, SinkRefusal, Source};
use std::alloc::Global;

/// The longest script.
pub const LIMIT: usize = 16_777_216;

// How many bytes are asked for at a time.
const PIECE: usize = 65_536;

/// Why the input wasn't read to its end.
#[derive(Clone, Copy, Debug, PartialEq, Eq)]
pub enum ReadRefusal {
    /// When the source failed: its count of faults rose.
    Failed,
    /// When no memory was found.
    Memory,
    /// When more bytes than a script may have were taken.
    Long,
}

// Room for one piece.
fn new_piece(alloc: Global) -> Result<Vec<u8>, ReadRefusal>
    ensures room { IfOk result (λ piece. length piece.items ≡ PIECE) }
    ensures memory { IfErr result (λ e. e ≡ Memory) }
{
    vec![in alloc; 0u8; PIECE].map_err(|_| ReadRefusal::Memory)
}

// Reads to the end, piece by piece.
fn read_by<S: Source>(
    alloc: Global,
    input: &mut S,
    piece: &mut [u8],
) -> Result<Vec<u8>, ReadRefusal>
    requires { 0 < length piece.old }
    ensures bytes { IfOk result (λ bytes. Consumes (S.left input.old) (S.left input.new) bytes.items) }
    ensures end { OnOk result (IsAtEnd (S.left input.new)) }
    ensures short { IfOk result (λ bytes. length bytes.items ≤ LIMIT) }
    ensures failed { IsErrOf result ReadFailed → Rose (S.failures input.old) (S.failures input.new) }
    ensures long { IsErrOf result Long → (bytes : List ℕ) × Consumes (S.left input.old) (S.left input.new) bytes × (LIMIT < length bytes) }
    ensures later { S.failures input.old ≤ S.failures input.new }
{
    let mut bytes = Vec::new(alloc);
    for _ in 0..u64::MAX {
        let Ok(count) = input.read(piece) else {
            return Err(ReadRefusal::Failed);
        };
        if count == 0 {
            return Ok(bytes);
        }
        if bytes.extend_from_slice(&piece[..count]).is_err() {
            return Err(ReadRefusal::Memory);
        }
        if bytes.len() > LIMIT {
            return Err(ReadRefusal::Long);
        }
    }
    Err(ReadRefusal::Memory)
}

/// All the bytes that are left, which are at most the limit.
pub fn read_all<S: Source>(alloc: Global, input: &mut S) -> Result<Vec<u8>, ReadRefusal>
    ensures bytes { IfOk result (λ bytes. Consumes (S.left input.old) (S.left input.new) bytes.items) }
    ensures end { OnOk result (IsAtEnd (S.left input.new)) }
    ensures short { IfOk result (λ bytes. length bytes.items ≤ LIMIT) }
    ensures failed { IsErrOf result ReadFailed → Rose (S.failures input.old) (S.failures input.new) }
    ensures long { IsErrOf result Long → (bytes : List ℕ) × Consumes (S.left input.old) (S.left input.new) bytes × (LIMIT < length bytes) }
    ensures later { S.failures input.old ≤ S.failures input.new }
{
    match new_piece(alloc) {
        Ok(mut piece) => read_by(alloc, input, &mut piece),
        Err(refusal) => Err(refusal),
    }
}

/// Writes all the bytes. After a refusal a front of them was taken.
pub fn write_all<K: Sink>(out: &mut K, bytes: &[u8]) -> Result<(), SinkRefusal>
    ensures ok { OnOk result (Appends (K.taken out.old) (K.taken out.new) bytes.now) }
    ensures err { OnErr result (AppendsFront (K.taken out.old) (K.taken out.new) bytes.now) }
    ensures failed { IsErrOf result SinkFailed → Rose (K.failures out.old) (K.failures out.new) }
    ensures later { K.failures out.old ≤ K.failures out.new }
{
    let mut rest = bytes;
    while !rest.is_empty() {
        let count = out.write(rest)?;
        rest = &rest[count..];
    }
    Ok(())
}
