//! Reading an input whole, and writing a text whole.
ghost use Rattle.std.specs.Prelude.{◌≡◌, ◌≢◌, ℕ, ◌<◌, ◌≤◌, ◌+◌, List, Option, IfOk, OnOk, OnErr, IfErr};
ghost use Rattle.std.specs.Prelude.{IsTrue, false, Some, length};
ghost use Rattle.com_io.specs.Faults.{Rose};
ghost use Rattle.com_io.specs.Told.{Loses, Gains, IsAtEnd, LosesAtMost, LosesMore, GainsPrefix, IsWholeOf};
ghost use Rattle.com_io.specs.declared.whole.ReadAllError.TheVariants as read_all_error;

use crate::{Failed, Sink, Source};
use com_base::ByteList;
use std::alloc::{AllocError, Global};

/// Why an input was not read whole.
#[derive(Debug, Clone, Copy, PartialEq, Eq)]
pub enum ReadAllError {
    /// A read failed: the source's count of faults rose in this call.
    ReadFault,
    /// More bytes came than the limit allows.
    TooLong,
    /// Want of memory.
    Memory,
}

impl From<AllocError> for ReadAllError {
    ghost use Rattle.std.specs.Prelude.{◌≡◌};
    ghost use Rattle.com_io.specs.declared.whole.ReadAllError.TheVariants as read_all_error;

    ghost from_gives = { λ _ e. e ≡ read_all_error.Memory };

    fn from(_error: AllocError) -> ReadAllError {
        ReadAllError::Memory
    }
}

// The most bytes that one read asks for.
const PIECE: usize = 65_536;

/// Reads an input to its end. The answer holds all bytes that came, at most `limit` of them.
///
/// `ReadFault` comes only where the count of faults rose in this call, and `TooLong` exactly where
/// more than `limit` bytes came. So for a source that tells its bytes and whose count did not rise,
/// the answer is `Ok` where at most `limit` bytes were left and `TooLong` where more were, or it is
/// want of memory. At most `limit + 1` bytes are taken, also by a call that fails. Bytes that were
/// taken are not given back.
#[tactic(auto, using(crate::proofs::Passing::loses_nothing, crate::proofs::Passing::whole_of, crate::proofs::Passing::more_of))]
pub fn read_all<S: Source>(
    alloc: Global,
    source: &mut S,
    limit: usize,
) -> Result<ByteList, ReadAllError>
    requires { limit < usize.MAX }
    ensures within { IfOk result (λ bytes. length bytes ≤ limit) }
    ensures all { IfOk result (λ bytes. Loses (S.left source.old) (S.left source.new) bytes) }
    ensures end { OnOk result (IsAtEnd (S.left source.new)) }
    ensures fault { IfErr result (λ e.
        e ≡ read_all_error.ReadFault → Rose (S.faults_of source.old) (S.faults_of source.new)) }
    ensures too_long { IfErr result (λ e.
        e ≡ read_all_error.TooLong → LosesMore (S.left source.old) (S.left source.new) limit) }
    ensures told { (input : List ℕ) → S.left source.old ≡ Some input → IsWholeOf limit input result }
    ensures taken { LosesAtMost (S.left source.old) (S.left source.new) (limit + 1) }
    ensures counts { S.faults_of source.old ≤ S.faults_of source.new }
{
    let mut bytes = ByteList::new(alloc);
    let mut buffer = vec![in alloc; 0; PIECE.min(limit + 1)]?;
    'pieces: loop {
        match read_within(source, buffer.as_mut_slice(), limit, &mut bytes) {
            Ok(true) => {}
            Ok(false) => return Ok(bytes),
            Err(error) => return Err(error),
        }
    }
}

// Reads once, at most one byte more than the limit allows, and appends what came to `bytes`.
// Answers whether something came.
fn read_within<S: Source>(
    source: &mut S,
    buffer: &mut [u8],
    limit: usize,
    bytes: &mut ByteList,
) -> Result<bool, ReadAllError>
    requires limit { limit < usize.MAX }
    requires within { length bytes.old ≤ limit }
    requires room { 0 < length buffer.old }
    ensures more { IfOk result (λ more. IsTrue more → length bytes.old < length bytes.new) }
    ensures within { OnOk result (length bytes.new ≤ limit) }
    ensures end { IfOk result (λ more. more ≡ false → IsAtEnd (S.left source.new)) }
    ensures carried { OnOk result ((start : Option (List ℕ)) →
        Loses start (S.left source.old) bytes.old → Loses start (S.left source.new) bytes.new) }
    ensures fault { IfErr result (λ e.
        e ≡ read_all_error.ReadFault → Rose (S.faults_of source.old) (S.faults_of source.new)) }
    ensures too_long { IfErr result (λ e. e ≡ read_all_error.TooLong → (start : Option (List ℕ)) →
        Loses start (S.left source.old) bytes.old → LosesMore start (S.left source.new) limit) }
    ensures lost { OnErr result ((start : Option (List ℕ)) →
        Loses start (S.left source.old) bytes.old → LosesAtMost start (S.left source.new) (limit + 1)) }
    ensures counts { S.faults_of source.old ≤ S.faults_of source.new }
{
    let room = buffer.len().min(limit + 1 - bytes.len());
    let count = read_piece(source, &mut buffer[..room], bytes)?;
    if bytes.len() > limit {
        return Err(ReadAllError::TooLong);
    }
    Ok(count > 0)
}

// Reads once, and appends what came to `bytes`.
#[tactic(auto, using(crate::proofs::Passing::loses_both, crate::proofs::Passing::loses_at_most))]
fn read_piece<S: Source>(
    source: &mut S,
    buffer: &mut [u8],
    bytes: &mut ByteList,
) -> Result<usize, ReadAllError>
    requires { 0 < length buffer.old }
    ensures count { IfOk result (λ n. length bytes.new ≡ length bytes.old + n) }
    ensures room { IfOk result (λ n. n ≤ length buffer.old) }
    ensures end { IfOk result (λ n. n ≡ 0 → IsAtEnd (S.left source.new)) }
    ensures carried { OnOk result ((start : Option (List ℕ)) →
        Loses start (S.left source.old) bytes.old → Loses start (S.left source.new) bytes.new) }
    ensures fault { IfErr result (λ e.
        e ≡ read_all_error.ReadFault → Rose (S.faults_of source.old) (S.faults_of source.new)) }
    ensures short { IfErr result (λ e. e ≢ read_all_error.TooLong) }
    ensures lost { OnErr result ((start : Option (List ℕ)) (most : ℕ) →
        Loses start (S.left source.old) bytes.old →
        length bytes.old + length buffer.old ≤ most → LosesAtMost start (S.left source.new) most) }
    ensures counts { S.faults_of source.old ≤ S.faults_of source.new }
{
    let count = match source.read(buffer) {
        Ok(count) => count,
        Err(Failed) => return Err(ReadAllError::ReadFault),
    };
    match bytes.push_all(&buffer[..count]) {
        Ok(()) => Ok(count),
        Err(_) => Err(ReadAllError::Memory),
    }
}

/// Writes a text to its end, piece after piece.
///
/// `Failed` comes only where the count of faults rose in this call; what was written is then a prefix
/// of the text. An empty text is written by no call of the sink.
#[tactic(auto, using(crate::proofs::Passing::before_all, crate::proofs::Passing::before_more, crate::proofs::Passing::before_nothing, crate::proofs::Passing::before_is_prefix))]
pub fn write_all<K: Sink>(sink: &mut K, bytes: &[u8]) -> Result<(), Failed>
    ensures ok { OnOk result (Gains (K.held sink.old) (K.held sink.new) bytes.now) }
    ensures prefix { GainsPrefix (K.held sink.old) (K.held sink.new) bytes.now }
    ensures failed { OnErr result (Rose (K.faults_of sink.old) (K.faults_of sink.new)) }
    ensures counts { K.faults_of sink.old ≤ K.faults_of sink.new }
{
    let mut rest = bytes;
    'pieces: while !rest.is_empty() {
        let count = sink.write(rest)?;
        rest = rest.split_at(count).1;
    }
    Ok(())
}
