//! A sink around a sink: what is written to it is gathered, and handed on in large pieces.
#![tactic(auto)]

ghost use Rattle.std.specs.Prelude.{◌≡◌, ◌≤◌, [], IfOk, OnErr, OnOk};
ghost use Rattle.com_io.specs.Faults.{Rose};
ghost use Rattle.com_io.specs.Told.{Gains};
ghost use Rattle.com_pieces.specs.Gathered.{with_kept};

mod kept;

pub use com_base::Memory;
use com_io::{Failed, Sink};
pub use kept::{Kept, PIECE};
use std::alloc::Global;

/// A sink around another one. What is written to it is gathered, and is handed on once there are `PIECE` bytes, and
/// when `flush` asks for it. So a sink that makes its writes last, as standard output does, gets few of them.
///
/// It holds what the sink in it holds, and behind that what is gathered. Its faults are those of the sink in it.
/// What is still gathered when it is dropped is lost.
#[derive(Drop)]
pub struct Pieces<K: Sink + Drop> {
    sink: K,
    kept: Kept,
}

impl<K: Sink + Drop> Pieces<K> {
    /// Around this sink, with nothing gathered. The only error is want of memory for what will be, and then the sink
    /// is dropped.
    pub fn new(alloc: Global, sink: K) -> Result<Pieces<K>, Memory>
        ensures sink { IfOk result (λ pieces. pieces.sink ≡ sink) }
        ensures none { IfOk result (λ pieces. pieces.kept ≡ []) }
    {
        Ok(Pieces {
            sink,
            kept: Kept::new(alloc)?,
        })
    }

    /// Hands on what is gathered, to the sink in it. Whatever is answered, it holds the same bytes.
    ///
    /// `Failed` comes only where the count of faults rose in this call. What could not be handed on stays gathered.
    #[tactic(auto, using(crate::proofs::Gathering::all_handed))]
    pub fn flush(&mut self) -> Result<(), Failed>
        ensures handed { OnOk result (Gains (K.held self.old.sink) (K.held self.new.sink) self.old.kept) }
        ensures none { OnOk result (self.new.kept ≡ []) }
        ensures same { with_kept (K.held self.new.sink) self.new.kept ≡ with_kept (K.held self.old.sink) self.old.kept }
        ensures failed { OnErr result (Rose (K.faults_of self.old.sink) (K.faults_of self.new.sink)) }
        ensures counts { K.faults_of self.old.sink ≤ K.faults_of self.new.sink }
    {
        self.kept.flush(&mut self.sink)
    }
}

impl<K: Sink + Drop> Sink for Pieces<K> {
    ghost use Rattle.com_pieces.specs.Gathered.{with_kept};

    ghost held = { λ p. with_kept (K.held p.sink) p.kept };

    ghost faults_of = { λ p. K.faults_of p.sink };

    /// Gathers as many bytes as there is room for in the piece. A piece that is full is handed on first.
    fn write(&mut self, from: &[u8]) -> Result<usize, Failed> {
        self.kept.gather(from, &mut self.sink)
    }

    fn faults(&self) -> u64 {
        self.sink.faults()
    }
}
