//! What is gathered for a piece.

ghost use Rattle.std.specs.Prelude.{◌≡◌, ◌+◌, ◌<◌, ◌≤◌, ◌++◌, [], drop, length, take, IfOk, OnErr, OnOk};
ghost use Rattle.com_io.specs.Faults.{Rose};
ghost use Rattle.com_io.specs.Told.{Gains};
ghost use Rattle.com_pieces.specs.Gathered.{with_kept};
ghost use Rattle.com_pieces.specs.declared.kept.TheConstants.{PIECE};

use com_base::Memory;
use com_io::{Failed, Sink};
use std::alloc::Global;
use std::marker::Model;

/// The most bytes that are gathered before they are handed on.
pub const PIECE: usize = 32_768;

/// Bytes that are gathered, seen as those that were not handed on yet. Room for a piece is taken at the start.
#[derive(Debug, Drop)]
pub struct Kept {
    // The room of a piece. What is gathered stands at its front, and what is behind that means nothing.
    room: Vec<u8>,
    // Where what was not handed on yet begins.
    at: usize,
    // Where it ends.
    end: usize,
}

impl Model for Kept {
    ghost use Rattle.std.specs.Prelude.{◌≡◌, ◌≤◌, drop, take, vec_len, ℕ, List};
    ghost use Rattle.com_pieces.specs.declared.kept.TheConstants.{PIECE};

    ghost Value = { List ℕ };

    ghost view = { λ k. drop k.at (take k.end k.room.items) };

    ghost invariant = { λ k. (k.at ≤ k.end) × (k.end ≤ PIECE) × (vec_len k.room ≡ PIECE) };
}

impl Kept {
    /// Nothing, with room for a piece. The only error is want of memory.
    pub(crate) fn new(alloc: Global) -> Result<Kept, Memory>
        ensures { IfOk result (λ kept. kept ≡ []) }
    {
        Ok(Kept {
            room: vec![in alloc; 0u8; PIECE]?,
            at: 0,
            end: 0,
        })
    }

    /// Hands on all that is gathered, to this sink. Whatever is answered, the bytes that the sink holds and those that
    /// are gathered are the same together. `Failed` comes only where the count of faults rose.
    pub(crate) fn flush<K: Sink>(&mut self, sink: &mut K) -> Result<(), Failed>
        ensures none { OnOk result (self.new ≡ []) }
        ensures same { with_kept (K.held sink.new) self.new ≡ with_kept (K.held sink.old) self.old }
        ensures failed { OnErr result (Rose (K.faults_of sink.old) (K.faults_of sink.new)) }
        ensures counts { K.faults_of sink.old ≤ K.faults_of sink.new }
    {
        hand_on(self.room.as_slice(), &mut self.at, &mut self.end, sink)
    }

    /// Gathers bytes from the front of `from`, as many as there is room for in the piece, and answers how many: at
    /// least 1, if `from` is not empty. A piece that is full is handed on to this sink first. `Failed` comes only
    /// where the count of faults rose, and then nothing more is gathered.
    #[tactic(auto, using(crate::proofs::Gathering::gathered))]
    pub(crate) fn gather<K: Sink>(&mut self, from: &[u8], sink: &mut K) -> Result<usize, Failed>
        ensures within { IfOk result (λ n. n ≤ length from.now) }
        ensures some { IfOk result (λ n. 0 < length from.now → 0 < n) }
        ensures taken { IfOk result (λ n. Gains (with_kept (K.held sink.old) self.old)
            (with_kept (K.held sink.new) self.new) (take n from.now)) }
        ensures kept { OnErr result (with_kept (K.held sink.new) self.new
            ≡ with_kept (K.held sink.old) self.old) }
        ensures failed { OnErr result (Rose (K.faults_of sink.old) (K.faults_of sink.new)) }
        ensures counts { K.faults_of sink.old ≤ K.faults_of sink.new }
    {
        hand_on_full(self.room.as_slice(), &mut self.at, &mut self.end, sink)?;
        let count = from.len().min(PIECE - self.end);
        put(&mut self.room, self.end, &from[..count]);
        self.end += count;
        Ok(count)
    }
}

// Lays bytes into a room from `end` on.
#[inline(always)]
fn put(room: &mut Vec<u8>, end: usize, bytes: &[u8])
    requires { end + length bytes.now ≤ length room.old.items }
    ensures length { length room.new.items ≡ length room.old.items }
    ensures front { take (end + length bytes.now) room.new.items ≡ take end room.old.items ++ bytes.now }
{
    let stop = end + bytes.len();
    room.as_mut_slice()[end..stop].copy_from_slice(bytes);
}

// Hands on the bytes of a room between `at` and `end`, where they end a piece, and lets go of them once they are. Where a
// write fails, `at` stands behind those that were handed on.
#[inline(always)]
fn hand_on_full<K: Sink>(
    room: &[u8],
    at: &mut usize,
    end: &mut usize,
    sink: &mut K,
) -> Result<(), Failed>
    requires { (at.old ≤ end.old) × (end.old ≤ PIECE) × (length room.now ≡ PIECE) }
    ensures more { OnOk result ((at.new ≤ end.new) × (end.new < PIECE)) }
    ensures within { OnErr result ((at.new ≤ end.new) × (end.new ≡ end.old)) }
    ensures same { with_kept (K.held sink.new) (drop at.new (take end.new room.now))
        ≡ with_kept (K.held sink.old) (drop at.old (take end.old room.now)) }
    ensures failed { OnErr result (Rose (K.faults_of sink.old) (K.faults_of sink.new)) }
    ensures counts { K.faults_of sink.old ≤ K.faults_of sink.new }
{
    if *end < PIECE {
        return Ok(());
    }
    hand_on(room, at, end, sink)
}

// Hands on the bytes of a room between `at` and `end`, and lets go of them once they are. Where a write fails, `at`
// stands behind those that were handed on.
#[inline(never)]
#[tactic(auto, using(crate::proofs::Gathering::handed_more, crate::proofs::Gathering::handed_all))]
fn hand_on<K: Sink>(
    room: &[u8],
    at: &mut usize,
    end: &mut usize,
    sink: &mut K,
) -> Result<(), Failed>
    requires { (at.old ≤ end.old) × (end.old ≤ length room.now) }
    ensures none { OnOk result ((at.new ≡ 0) × (end.new ≡ 0)) }
    ensures within { OnErr result ((at.new ≤ end.new) × (end.new ≡ end.old)) }
    ensures same { with_kept (K.held sink.new) (drop at.new (take end.new room.now))
        ≡ with_kept (K.held sink.old) (drop at.old (take end.old room.now)) }
    ensures failed { OnErr result (Rose (K.faults_of sink.old) (K.faults_of sink.new)) }
    ensures counts { K.faults_of sink.old ≤ K.faults_of sink.new }
{
    let gathered = room.split_at(*end).0;
    'pieces: while *at < gathered.len() {
        let count = sink.write(gathered.split_at(*at).1)?;
        *at += count;
    }
    *at = 0;
    *end = 0;
    Ok(())
}
