//! What is read is what the rules look at.

ghost use Rattle.std.specs.Prelude.{◌≡◌};
ghost use Rattle.com_refs_books.specs.Changes.{Books};
ghost use Rattle.com_model.specs.State.{State, sight_of};
ghost use Rattle.com_view.specs.Reads.{Reads};
ghost use Rattle.com_view.specs.Seen.{Seen, sight_by};

/// Where the parts that are read are those of a state, the rules look at the same. So each clause here that
/// speaks of what is read speaks of the state.
pub fn reads_the_state()
    ensures { (w : Seen) (b : Books) (st : State) → Reads w b st → sight_of w.scenario st ≡ sight_by w b }
{}
