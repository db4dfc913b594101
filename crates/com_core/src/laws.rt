//! What the contracts of a core say of its state, stated on functions that do nothing.

ghost use Rattle.std.specs.Prelude.{◌≡◌, ℕ, [], ◌∷◌};
ghost use Rattle.com_core.specs.Beginning.{BeginsParts};
ghost use Rattle.com_core.specs.Making.{BooksLater};
ghost use Rattle.com_core.specs.Seen.{CoreView, IsWhole, Steps, core_state};
ghost use Rattle.com_refs_rows.specs.Books.{books_held};
ghost use Rattle.com_model.specs.declared.deeds.Entry.{Entry};
ghost use Rattle.com_model.specs.Clock.{ticked};
ghost use Rattle.com_model.specs.Formed.{Formed};
ghost use Rattle.com_model.specs.State.{after, books_in, first_tables};

/// A new core of a formed scenario is whole, and its state is the first one, if its books are those of the
/// first state.
pub fn begins_first()
    ensures { (c : CoreView) → Formed c.scenario → BeginsParts c.scenario c.parts c.fallen → c.clock ≡ 0
        → c.entered ≡ 0 ∷ [] → books_held c.held ≡ books_in (first_tables c.scenario)
        → (core_state c ≡ first_tables c.scenario) × IsWhole c }
{}

/// A step of a core that is whole leaves it whole, and its state is the one after the entry, if the books are
/// those of that state, with the holders of each object, and with what lost its last holder written down.
pub fn steps_are_next()
    ensures { (lane : ℕ) (old new : CoreView) (e : Entry) → IsWhole old → Steps lane old new e
        → new.scenario ≡ old.scenario → new.clock ≡ ticked e.deed old.clock
        → BooksLater old.scenario (core_state old) lane e.deed new.held
        → (core_state new ≡ after old.scenario (core_state old) lane e.deed) × IsWhole new }
{}
