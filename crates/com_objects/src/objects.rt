//! The objects that were made.
ghost use Rattle.std.specs.Prelude.{◌≡◌, ℕ, ◌+◌, ◌<◌, ◌^◌, [], ◌∷◌, ◌++◌, length, OnOk, Some, is_some};
ghost use Rattle.com_model.specs.Lists.{is_member};
ghost use Rattle.com_model.specs.Objects.{asked_number, makes, finals};
ghost use Rattle.com_model.specs.State.{grown};
ghost use Rattle.com_state.specs.Parts.{making_at, named_at, class_at, objects_after};
ghost use Rattle.com_objects.specs.Kept.{IsMade, row_of};
ghost use Rattle.com_objects.specs.Rooms.{HasRowFor};

use com_base::{HResult, Memory};
use com_body::Asked;
use com_model::{Deed, Making};
use std::alloc::Global;
use std::marker::Model;

// An object: its making, and whether it was released.
#[derive(Debug, Clone, Copy)]
struct Row {
    making: Making,
    is_released: bool,
}

/// The objects that were made, numbered from 1 in the order of making, and those that were released, in
/// the order of their Finals. Seen as their tables, beside the room for more of each.
#[derive(Debug, Drop)]
pub struct Objects {
    rows: Vec<Row>,
    finaled: Vec<u32>,
}

impl Model for Objects {
    ghost use Rattle.std.specs.Prelude.{vec_capacity};
    ghost use Rattle.com_objects.specs.Rooms.{ObjectRows};

    ghost Value = { ObjectRows };

    ghost use Rattle.com_objects.specs.Kept.{ObjectsKept, tables_of};

    ghost view = { λ a. record {
      tables = tables_of a.rows.items a.finaled.items;
      made = vec_capacity a.rows;
      gone = vec_capacity a.finaled;
    } };

    ghost invariant = { λ a. ObjectsKept a.rows.items a.finaled.items };
}

impl Objects {
    /// No object was made. It takes no memory.
    pub fn new(alloc: Global) -> Objects
        ensures { result.tables ≡ record { makings = []; finaled = [] } }
    {
        Objects {
            rows: Vec::new(alloc),
            finaled: Vec::new(alloc),
        }
    }

    /// Makes room for the row that an entry brings. The only error is want of memory.
    pub fn reserve(&mut self, deed: &Deed) -> Result<(), Memory>
        ensures tables { self.new.tables ≡ self.old.tables }
        ensures space { OnOk result (HasRowFor self.new deed.now) }
    {
        match deed {
            Deed::Made { .. } => self.rows.reserve(1),
            Deed::Final { .. } => self.finaled.reserve(1),
            _ => Ok(()),
        }
    }

    /// Makes of the objects what an entry makes of them, whichever lane the entry is of: a Made that names an
    /// object and its apartment adds one more object, a Final releases the object that it names, and every
    /// other entry leaves the objects as they are. It takes no memory.
    ///
    /// There is room for the row that the entry brings, as `reserve` makes it; the number of one more object
    /// has 32 bits; and a Final names an object that was made.
    pub fn apply(&mut self, deed: &Deed)
        requires released { IsMade (length self.old.tables.makings) (finals deed.now) }
        requires room { length self.old.tables.makings + 1 < 2 ^ 32 }
        requires space { HasRowFor self.old deed.now }
        ensures { (lane : ℕ) → self.new.tables
            ≡ objects_after self.old.tables (record { lane = lane; deed = deed.now }) }
    {
        match deed {
            Deed::Made {
                object,
                apartment,
                class,
                ..
            } => self.make(making_of(*object, *apartment, class)),
            Deed::Final { object } => self.release(*object),
            _ => {}
        }
    }

    // Makes one more, if one is made.
    fn make(&mut self, making: Option<Making>)
        requires number { length self.old.tables.makings + 1 < 2 ^ 32 }
        requires space { length self.old.tables.makings < self.old.made }
        ensures { self.new.tables ≡ record self.old.tables {
          makings = grown (is_some making) making self.old.tables.makings;
        } }
    {
        let Some(making) = making else {
            return;
        };
        self.rows.push_reserved(Row {
            making,
            is_released: false,
        });
    }

    // Releases an object.
    fn release(&mut self, object: u32)
        requires made { IsMade (length self.old.tables.makings) (Some object) }
        requires space { length self.old.tables.finaled < self.old.gone }
        ensures { self.new.tables
            ≡ record self.old.tables { finaled = self.old.tables.finaled ++ object ∷ [] } }
    {
        self.finaled.push_reserved(object);
        self.rows[object as usize - 1].is_released = true;
    }

    /// How many were made.
    pub fn len(&self) -> u32
        ensures { result ≡ length self.now.tables.makings }
    {
        self.rows.len() as u32
    }

    /// The making of an object.
    #[tactic(auto, using(crate::proofs::Kept::making_of_row))]
    pub fn making(&self, object: u32) -> Option<Making>
        ensures { result ≡ making_at self.now.tables object }
    {
        match row_at(&self.rows, object) {
            Some(row) => Some(row.making),
            None => None,
        }
    }

    /// The apartment that owns an object, the neutral one for an agile object, and 0 for one that was not
    /// made.
    pub fn owner(&self, object: u32) -> u32
        ensures { result ≡ named_at self.now.tables object }
    {
        match self.making(object) {
            Some(making) => making.apartment,
            None => 0,
        }
    }

    /// The number of an object's class, and 0 for one that was not made.
    pub fn class(&self, object: u32) -> u32
        ensures { result ≡ class_at self.now.tables object }
    {
        match self.making(object) {
            Some(making) => making.class,
            None => 0,
        }
    }

    /// Whether an object was released.
    #[tactic(auto, using(crate::proofs::Kept::released_of_row))]
    pub fn is_released(&self, object: u32) -> bool
        ensures { result ≡ is_member object self.now.tables.finaled }
    {
        match row_at(&self.rows, object) {
            Some(row) => row.is_released,
            None => false,
        }
    }
}

// The row of an object.
#[tactic(auto, using(crate::proofs::Kept::row_none, crate::proofs::Kept::row_some))]
fn row_at(rows: &[Row], object: u32) -> Option<Row>
    ensures { result ≡ row_of rows.now object }
{
    if object == 0 {
        return None;
    }
    rows.get(object as usize - 1).copied()
}

// The making that a Made entry says.
fn making_of(object: Option<u32>, apartment: Option<u32>, class: &Asked) -> Option<Making>
    ensures { (iface : Asked) (hr : HResult)
        → result ≡ makes (Deed.Made object apartment class.now iface hr) }
{
    let Some(object) = object else {
        return None;
    };
    let Some(apartment) = apartment else {
        return None;
    };
    Some(Making {
        object,
        apartment,
        class: number_of(class),
    })
}

// The number of a class that was asked for by its number, and 0 for a CLSID.
fn number_of(asked: &Asked) -> u32
    ensures { result ≡ asked_number asked.now }
{
    match asked {
        Asked::Number(number) => *number,
        Asked::Guid(_) => 0,
    }
}
