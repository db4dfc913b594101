//! The moves of an entry, as two lists that are used again from entry to entry.
ghost use Rattle.std.specs.Prelude.{◌≡◌, OnOk, None, [], ◌∷◌, ◌++◌, slice_index_or};
ghost use Rattle.com_body.specs.Frames.{references};
ghost use Rattle.com_laws_places.specs.Moves.{no_moves, together, moved, all_moved};
ghost use Rattle.com_reference_moves.specs.Steps.{movings_of, exchanged};

use com_base::{Memory, RefValue, Value};
use std::alloc::Global;
use std::marker::Model;

/// A reference that an apartment loses or gains at a place.
#[derive(Debug, Clone, Copy, PartialEq, Eq)]
pub struct Move {
    /// The apartment.
    pub apartment: u32,
    /// The reference.
    pub reference: RefValue,
}

/// What an entry takes from places and brings to places: slots of scripts and of open bodies, links of
/// objects, and results of direct calls that left and are not back. Both lists keep their room from entry to
/// entry.
#[derive(Debug, Drop)]
pub struct Moves {
    lost: Vec<Move>,
    gained: Vec<Move>,
}

impl Model for Moves {
    ghost use Rattle.com_laws_places.specs.Moves.{Moves as Movings};
    ghost use Rattle.com_reference_moves.specs.Steps.{movings_of};

    ghost Value = { Movings };

    ghost view = { λ a. record { lost = movings_of a.lost.items; gained = movings_of a.gained.items } };
}

// Appends a move: null is none, and neither is what is in no apartment.
#[tactic(auto, using(crate::proofs::Lists::movings_more))]
fn put(moves: &mut Vec<Move>, apartment: Option<u32>, held: Option<RefValue>) -> Result<(), Memory>
    ensures { OnOk result (movings_of moves.new.items ≡ movings_of moves.old.items ++ moved apartment held) }
{
    let Some(apartment) = apartment else {
        return Ok(());
    };
    let Some(reference) = held else {
        return Ok(());
    };
    moves.push(Move {
        apartment,
        reference,
    })?;
    Ok(())
}

// What a place of a list holds, and null beyond the list.
fn held_at(places: &[Option<RefValue>], number: u8) -> Option<RefValue>
    ensures { result ≡ slice_index_or places.now number None }
{
    if (number as usize) < places.len() {
        return places[number as usize];
    }
    None
}

#[tactic(auto, using(crate::proofs::Lists::append_none))]
impl Moves {
    /// No moves. It takes no memory.
    pub fn new(alloc: Global) -> Moves
        ensures { result ≡ no_moves }
    {
        Moves {
            lost: Vec::new(alloc),
            gained: Vec::new(alloc),
        }
    }

    /// Takes all moves out, and keeps the room.
    pub fn clear(&mut self)
        ensures { self.new ≡ no_moves }
    {
        self.lost.clear();
        self.gained.clear();
    }

    /// What an entry takes from places.
    pub fn losses(&self) -> &[Move]
        ensures { movings_of result.now ≡ self.now.lost }
    {
        self.lost.as_slice()
    }

    /// What an entry brings to places.
    pub fn gains(&self) -> &[Move]
        ensures { movings_of result.now ≡ self.now.gained }
    {
        self.gained.as_slice()
    }

    /// An apartment loses what a place holds. The only error is want of memory.
    pub fn lose(&mut self, apartment: Option<u32>, held: Option<RefValue>) -> Result<(), Memory>
        ensures { OnOk result (self.new ≡ record self.old { lost = self.old.lost ++ moved apartment held }) }
    {
        put(&mut self.lost, apartment, held)
    }

    /// An apartment gains what comes to a place. The only error is want of memory.
    pub fn gain(&mut self, apartment: Option<u32>, held: Option<RefValue>) -> Result<(), Memory>
        ensures { OnOk result (self.new
            ≡ record self.old { gained = self.old.gained ++ moved apartment held }) }
    {
        put(&mut self.gained, apartment, held)
    }

    /// A write at a place of a list, counted from 0: what stood there is lost, and what comes there gained.
    /// The only error is want of memory.
    pub fn exchange(
        &mut self,
        apartment: Option<u32>,
        places: &[Option<RefValue>],
        number: u8,
        held: Option<RefValue>,
    ) -> Result<(), Memory>
        ensures { OnOk result (self.new ≡ together self.old (exchanged apartment places.now number held)) }
    {
        self.lose(apartment, held_at(places, number))?;
        self.gain(apartment, held)
    }

    /// An apartment loses all that a list of places holds. The only error is want of memory.
    #[tactic(auto, using(crate::proofs::Lists::all_moved_more, crate::proofs::Lists::append_none))]
    pub fn lose_all(
        &mut self,
        apartment: Option<u32>,
        places: &[Option<RefValue>],
    ) -> Result<(), Memory>
        ensures { OnOk result (self.new
            ≡ record self.old { lost = self.old.lost ++ all_moved apartment places.now }) }
    {
        for place in places {
            self.lose(apartment, *place)?;
        }
        Ok(())
    }

    // An apartment gains what a value holds.
    fn gain_value(&mut self, apartment: Option<u32>, value: &Value) -> Result<(), Memory>
        ensures { OnOk result (self.new
            ≡ record self.old {
              gained = self.old.gained ++ all_moved apartment (references
                  (value.now ∷ []));
            }) }
    {
        match value {
            Value::Ref(held) => self.gain(apartment, *held),
            _ => Ok(()),
        }
    }

    /// An apartment gains what values hold. The only error is want of memory.
    pub fn gain_values(&mut self, apartment: Option<u32>, values: &[Value]) -> Result<(), Memory>
        ensures { OnOk result (self.new
            ≡ record self.old { gained = self.old.gained ++ all_moved apartment (references values.now) }) }
    {
        for value in values {
            self.gain_value(apartment, value)?;
        }
        Ok(())
    }
}
