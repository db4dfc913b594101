//! How far the counters of a core can have come, and what an entry may ask of them, stated on functions that
//! do nothing.
#![tactic(auto)]

ghost use Rattle.std.specs.Prelude.{◌≡◌, ◌+◌, ◌<◌, ◌≤◌, ◌^◌, ℕ, List, Some};
ghost use Rattle.com_calls.specs.Steps.{delay_of};
ghost use Rattle.com_model.specs.declared.deeds.Deed.{Deed};
ghost use Rattle.com_model.specs.declared.deeds.Entry.{Entry};
ghost use Rattle.com_model.specs.declared.scenario.Scenario.{Scenario};
ghost use Rattle.com_model.specs.Ends.{limit};
ghost use Rattle.com_model.specs.Formed.{Formed};
ghost use Rattle.com_model.specs.State.{State, StandsFor, next_of};
ghost use Rattle.com_laws_ranges.specs.Bounds.{Counted, HasPlace, FitsParts, StepWrites};
ghost use Rattle.com_scene.specs.Ranges.{FitsDeed};
ghost use Rattle.com_state.specs.After.{step_in};

mod frames;
mod taken;
mod works;

pub use frames::frames_have_shape;
pub use taken::entries_are_taken;
pub use works::{open_bodies_have_work, works_bite};

/// Where a state stands for a history of a formed scenario, there are no more calls, objects, STAs, cookies,
/// causalities, openers of a lane, initialisations and words than entries, no more than four times as many
/// packets, and a proxy has no more than twenty times as many public references of an interface (`few`). So
/// within the limit of entries one more of each can be counted (`place`).
pub fn counters()
    ensures few { (s : Scenario) (st : State) (h : List Entry) → Formed s → StandsFor s st h
        → Counted st st.entries }
    ensures place { (s : Scenario) (st : State) (h : List Entry) → Formed s → StandsFor s st h
        → st.entries ≤ limit s → HasPlace st }
{}

/// Where a state stands for a history of a formed scenario, what a lane's next entry names is there: the STA
/// that an Init makes is the next one, the one that an Uninit ends was made, an Uninit takes one
/// initialisation back, the object of a Final was made, a call that waits or is posted again was issued, and
/// an Out issues the next call, on an object that was made or on none (`parts`). An Enter has at most 4
/// values, and what is made or asked for is by an interface of 16 bits (`deed`).
pub fn entries_fit()
    ensures parts { (s : Scenario) (st : State) (h : List Entry) (l : ℕ) (d : Deed) → Formed s
        → StandsFor s st h → next_of s st l ≡ Some d → FitsParts st l d }
    ensures deed { (s : Scenario) (st : State) (h : List Entry) (l : ℕ) (d : Deed) → Formed s
        → StandsFor s st h → next_of s st l ≡ Some d → FitsDeed d }
{}

/// In a formed scenario the step of whoever acts writes to registers, slots and links that there are.
pub fn steps_write()
    ensures { (s : Scenario) (st : State) (e : Entry) → Formed s → StepWrites (step_in s st e) }
{}

/// Where a state stands for a history of a formed scenario within the limit of entries, the time until which
/// a Retry lets its call wait is a number of 64 bits.
pub fn time_fits()
    ensures { (s : Scenario) (st : State) (h : List Entry) (l : ℕ) (d : Deed) → Formed s
        → StandsFor s st h → st.entries ≤ limit s → next_of s st l ≡ Some d → st.clock + delay_of d < 2 ^ 64 }
{}
