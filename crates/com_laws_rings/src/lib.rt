//! What an explanation prints of a stuck history is so: its lines are those of the lanes that wait, and its
//! cycle is the one cycle of the relation "waits for". Stated on functions that do nothing.
#![tactic(auto)]

ghost use Rattle.std.specs.Prelude.{◌≡◌, ℕ, List, [], ◌∷◌, true};
ghost use Rattle.com_model.specs.declared.deeds.Entry.{Entry};
ghost use Rattle.com_model.specs.declared.scenario.Scenario.{Scenario};
ghost use Rattle.com_model.specs.Cases.{direct_call};
ghost use Rattle.com_model.specs.Ends.{stuck};
ghost use Rattle.com_model.specs.Formed.{Formed};
ghost use Rattle.com_model.specs.Rules.{legal};
ghost use Rattle.com_waits.specs.Chains.{cycle_of, next_in};
ghost use Rattle.com_waits.specs.Laws.{IsOpen, IsRing, leads};
ghost use Rattle.com_waits.specs.Reasons.{waits_of};
ghost use Rattle.com_laws_rings.specs.Rings.{AllDifferent, BeginsLeast, EachLeadsInto, EachNamesLanes, IsLane};
ghost use Rattle.com_laws_rings.specs.Rings.{IsNoneOrRing, IsOnlyRing, LeadsInto, LinesAreLanes, cycle};
ghost use Rattle.com_laws_rings.specs.Examples.{line_of_the_clock, pumping, two_lanes, two_more, waiting};

/// In every legal history of a formed scenario that is stuck, each line of the explanation names a lane of
/// the scenario with the reason for which it waits, and where this names another lane, it is a lane too
/// (`names`). The lines are those of the lanes in which something is open, each once, by number (`lanes`), and
/// nothing is open elsewhere (`open`). So what the lines say of any lane is for which lane it waits
/// (`relation`).
pub fn lines_name_lanes()
    ensures names { (s : Scenario) (h : List Entry) → Formed s → legal s h → stuck s h ≡ true
        → EachNamesLanes s h (waits_of s h) }
    ensures lanes { (s : Scenario) (h : List Entry) → Formed s → legal s h → stuck s h ≡ true
        → LinesAreLanes s h (waits_of s h) }
    ensures open { (s : Scenario) (h : List Entry) (l : ℕ) → legal s h → IsOpen h l → IsLane s l }
    ensures relation { (s : Scenario) (h : List Entry) (l : ℕ) → Formed s → legal s h → stuck s h ≡ true
        → next_in (waits_of s h) l ≡ leads s h l }
{}

/// In every legal history of a formed scenario that is stuck: the cycle of the explanation is empty, or it is
/// a cycle of lanes each of which waits for the next one, and the last one for the first; no lane stands
/// twice in it, and it begins with its least (`ring`). Whichever lane waits for another, its chain enters
/// this cycle (`entered`). And every cycle of lanes that wait for each other goes through lanes of this one
/// (`only`): so it is printed wherever there is one, and there is no other.
pub fn rings_are_rings()
    ensures ring { (s : Scenario) (h : List Entry) → Formed s → legal s h → stuck s h ≡ true
        → IsNoneOrRing s h (cycle s h) }
    ensures entered { (s : Scenario) (h : List Entry) → Formed s → legal s h → stuck s h ≡ true
        → EachLeadsInto s h (cycle s h) }
    ensures only { (s : Scenario) (h : List Entry) → Formed s → legal s h → stuck s h ≡ true
        → IsOnlyRing s h (cycle s h) }
{}

/// No clause is empty. Lines of two lanes that wait for each other have the cycle of both, from the least on,
/// also where the chain comes to it from a third (`two`, `third`), and lines of messages have none
/// (`messages`). A list is refused as a cycle where nobody waits (`ring`), where it begins with another lane
/// than its least (`least`), and where it goes round twice (`once`); so is a chain into no cycle (`entered`),
/// and a line of a lane that there is not (`line`).
pub fn cycles_bite()
    ensures two { cycle_of two_lanes ≡ 2 ∷ 3 ∷ [] }
    ensures third { cycle_of two_more ≡ 2 ∷ 3 ∷ [] }
    ensures messages { cycle_of pumping ≡ [] }
    ensures ring { IsRing direct_call [] (1 ∷ []) → ⊥ }
    ensures least { BeginsLeast (3 ∷ 2 ∷ []) → ⊥ }
    ensures once { AllDifferent (2 ∷ 3 ∷ 2 ∷ 3 ∷ []) → ⊥ }
    ensures entered { LeadsInto direct_call [] [] 1 → ⊥ }
    ensures line { EachNamesLanes direct_call [] line_of_the_clock → ⊥ }
    ensures relation { next_in waiting 1 ≡ leads direct_call [] 1 → ⊥ }
{}
