//! The first fault of a text is the first: texts that begin alike up to a fault have it too, whatever follows,
//! and none of them is a scenario. Stated on functions that do nothing.
#![tactic(auto)]

ghost use Rattle.com_scenario.specs.Scenarios.{reading};
ghost use Rattle.com_laws_faults.specs.Laws.{Stays, IsHopeless, IsOne, IsKnown, IsShared, IsBarred};
ghost use Rattle.com_laws_faults.specs.Laws.{StaysCut, StaysEarly, IsKnownAll};
ghost use Rattle.com_laws_faults.specs.Laws.{at_the_end, blames, bytes_first, length_first};

/// What a text has as its fault, each text that begins with it has, if its end cuts no word and the fault does
/// not say only that it ends too early. So no scenario begins with it, and all beginnings of one text that are
/// at fault so have one fault, which is the text's.
pub fn faults_stay()
    ensures stay { Stays reading }
    ensures hopeless { IsHopeless reading }
    ensures one { IsOne reading }
{}

/// Where a text's fault stands in a beginning of it, the beginning has this fault with nothing behind. So has
/// every text that begins so, and none of them is a scenario. Fault `UNENDED` is found later than it stands.
pub fn faults_come_first()
    ensures known { IsKnown reading }
    ensures shared { IsShared reading }
    ensures barred { IsBarred reading }
{}

/// The laws refuse readers that say where they stopped, that blame a word for what comes later, that judge all
/// bytes before the words, or the length before them.
pub fn wrong_readers_fail()
    ensures at_the_end { Stays at_the_end → ⊥ }
    ensures blames { IsKnown blames → ⊥ }
    ensures bytes_first { Stays bytes_first → ⊥ }
    ensures length_first { Stays length_first → ⊥ }
{}

/// No premise can be left out: a word that is cut may become another, a section that is open may end, and a
/// skip is judged where its script ends.
pub fn premises_are_needed()
    ensures cut { StaysCut reading → ⊥ }
    ensures early { StaysEarly reading → ⊥ }
    ensures later { IsKnownAll reading → ⊥ }
{}
