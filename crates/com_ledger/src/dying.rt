//! Which objects begin to die by an entry: those that nothing holds any more, and none of whose bodies runs.
ghost use Rattle.std.specs.Prelude.{◌≡◌, ℕ, ◌+◌, ◌++◌, ◌∷◌, [], ◌<◌, ◌≤◌, ◌^◌, List, filter, is_some, length};
ghost use Rattle.std.specs.Prelude.{slice_index_or, vec_capacity, vec_len};
ghost use Rattle.com_refs_books.specs.Counting.{count_if};
ghost use Rattle.com_ledger.specs.Bodies.{entered_after, left_object, without_body};
ghost use Rattle.com_ledger.specs.Falling.{begins_by, other_object, placed_in};
ghost use Rattle.com_ledger.specs.Most.{Most};
ghost use Rattle.com_model.specs.Lists.{is_member};
ghost use Rattle.com_model.specs.Objects.{finals, makes};
ghost use Rattle.com_refs.specs.Counts.{holders_of};
ghost use Rattle.com_scene.specs.Actors.{acting_of};

use crate::Ledger;
use com_model::Deed;
use com_objects::{DyingQueue, Entered, Objects};
use com_scene::Actor;

/// What says whether an object is dying: the objects, who holds references, how many bodies of each object
/// run, and the objects that were dying before.
#[derive(Clone, Copy)]
pub struct DyingScan<'a> {
    /// The objects.
    pub objects: &'a Objects,
    /// Who holds references.
    pub ledger: &'a Ledger,
    /// How many bodies of each object run.
    pub entered: &'a Entered,
    /// The objects that were dying before.
    pub fallen: &'a DyingQueue,
}

// The object whose body an entry ends.
fn left_by(deed: &Deed, acting: Actor) -> Option<u32>
    ensures { result ≡ left_object deed.now (acting_of acting) }
{
    match deed {
        Deed::Leave { .. } => match acting {
            Actor::Body { object, .. } => Some(object),
            _ => None,
        },
        _ => None,
    }
}

// Whether an entry makes an object.
fn is_making(deed: &Deed) -> bool
    ensures { result ≡ is_some (makes deed.now) }
{
    match deed {
        Deed::Made {
            object: Some(_),
            apartment: Some(_),
            ..
        } => true,
        _ => false,
    }
}

/// The object that may be without holder and body though it lost no holder: the last one, where the entry
/// made it, or the one whose body the entry ends.
pub fn other_by(deed: &Deed, acting: Actor, objects: u32) -> Option<u32>
    ensures { result ≡ other_object objects deed.now (acting_of acting) }
{
    if is_making(deed) {
        return Some(objects);
    }
    left_by(deed, acting)
}

/// The object that an entry releases.
pub fn released_by(deed: &Deed) -> Option<u32>
    ensures { result ≡ finals deed.now }
{
    match deed {
        Deed::Final { object } => Some(*object),
        _ => None,
    }
}

// Counts a body that ends, where one does.
#[tactic(auto, using(crate::proofs::Runs::left_most, crate::proofs::Runs::kept_most))]
fn count_left(entered: &mut Entered, left: Option<u32>)
    ensures counts { entered.new.counts ≡ without_body left entered.old.counts }
    ensures most { (n : ℕ) → Most n entered.old.counts → Most (n + 1) entered.new.counts }
{
    if let Some(object) = left {
        entered.leave(object);
    }
}

/// Counts the bodies that an entry begins and ends. There is room for one more object.
#[tactic(auto, using(crate::proofs::Runs::entered_most, crate::proofs::Runs::made_most))]
pub fn count_bodies(entered: &mut Entered, deed: &Deed, acting: Actor)
    requires few { (o : ℕ) → slice_index_or entered.old.counts o 0 + 1 < 2 ^ 32 }
    requires room { 0 < entered.old.spare }
    ensures counts { entered.new.counts
        ≡ entered_after deed.now (acting_of acting) entered.old.counts }
    ensures most { (n : ℕ) → Most n entered.old.counts → Most (n + 1) entered.new.counts }
{
    match deed {
        Deed::Made {
            object: Some(_),
            apartment: Some(_),
            ..
        } => entered.make(),
        Deed::Enter { object, .. } => entered.enter(*object),
        _ => count_left(entered, left_by(deed, acting)),
    }
}

// Whether an object is among those that are given.
fn is_among(objects: &[u32], object: u32) -> bool
    ensures { result ≡ is_member object objects.now }
{
    for other in objects {
        if *other == object {
            return true;
        }
    }
    false
}

impl<'a> DyingScan<'a> {
    // Whether an object is dying and was not before: it was made and is not released, nothing holds it, and
    // none of its bodies runs.
    #[tactic(auto, using(crate::proofs::Begins::not_zero, crate::proofs::Begins::not_above, crate::proofs::Begins::not_held, crate::proofs::Begins::not_running, crate::proofs::Begins::not_released, crate::proofs::Begins::else_begins))]
    fn begins_to_die(&self, object: u32) -> bool
        ensures { result ≡ begins_by self.now.objects.now.tables
            (holders_of self.now.ledger.now.tables) self.now.entered.now.counts
            self.now.fallen.now.objects object }
    {
        if object == 0 {
            return false;
        }
        if object > self.objects.len() {
            return false;
        }
        if self.ledger.is_held(object) {
            return false;
        }
        if self.entered.runs(object) {
            return false;
        }
        if self.objects.is_released(object) {
            return false;
        }
        !is_among(self.fallen.as_slice(), object)
    }

    // Keeps an object where it begins to die. There is room for it.
    fn keep(&self, fresh: &mut Vec<u32>, object: u32)
        requires { vec_len fresh.old + 1 ≤ vec_capacity fresh.old }
        ensures items { fresh.new.items ≡ fresh.old.items ++ filter (begins_by self.now.objects.now.tables
            (holders_of self.now.ledger.now.tables) self.now.entered.now.counts
            self.now.fallen.now.objects) (object ∷ []) }
        ensures len { vec_len fresh.new ≤ vec_len fresh.old + 1 }
        ensures capacity { vec_capacity fresh.old ≤ vec_capacity fresh.new }
    {
        if self.begins_to_die(object) {
            fresh.push_reserved(object);
        }
    }

    // Keeps the same of two lists: the one object beside, where its number is the next, and the next that
    // lost a holder. Answers the one beside where its turn is yet to come. There is room for both.
    fn keep_next(&self, fresh: &mut Vec<u32>, other: Option<u32>, object: u32) -> Option<u32>
        requires { vec_len fresh.old + 1 + count_if (is_some other) ≤ vec_capacity fresh.old }
        ensures items { (rest : List ℕ)
            → fresh.new.items ++ filter (begins_by self.now.objects.now.tables
            (holders_of self.now.ledger.now.tables) self.now.entered.now.counts
            self.now.fallen.now.objects) (placed_in result rest)
            ≡ fresh.old.items ++ filter (begins_by self.now.objects.now.tables
            (holders_of self.now.ledger.now.tables) self.now.entered.now.counts
            self.now.fallen.now.objects) (placed_in other (object ∷ rest)) }
        ensures len { vec_len fresh.new + count_if (is_some result)
            ≤ vec_len fresh.old + 1 + count_if (is_some other) }
        ensures capacity { vec_capacity fresh.old ≤ vec_capacity fresh.new }
    {
        let Some(number) = other else {
            self.keep(fresh, object);
            return None;
        };
        if number < object {
            self.keep(fresh, number);
            self.keep(fresh, object);
            return None;
        }
        self.keep(fresh, object);
        if number == object {
            return None;
        }
        other
    }

    /// Keeps the objects that begin to die, by number: of those that lost a holder, and of one beside. There
    /// is room for as many.
    pub fn find_dying(&self, fresh: &mut Vec<u32>, other: Option<u32>)
        requires { length self.now.ledger.now.touched + 1 ≤ vec_capacity fresh.old }
        ensures items { fresh.new.items
            ≡ filter (begins_by self.now.objects.now.tables (holders_of self.now.ledger.now.tables)
            self.now.entered.now.counts self.now.fallen.now.objects)
            (placed_in other self.now.ledger.now.touched) }
        ensures few { vec_len fresh.new ≤ length self.now.ledger.now.touched + 1 }
    {
        fresh.clear();
        let mut left = other;
        for object in self.ledger.touched_objects() {
            left = self.keep_next(fresh, left, *object);
        }
        if let Some(object) = left {
            self.keep(fresh, object);
        }
    }
}
