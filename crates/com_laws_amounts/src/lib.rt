//! No count of public references is ever negative. The books are natural numbers, with a subtraction that
//! stops at 0; these laws say that it never stops there. Stated on functions that do nothing.
#![tactic(auto)]

ghost use Rattle.std.specs.Prelude.{◌≡◌, List, [], ◌∷◌, negsuc};
ghost use Rattle.com_model.specs.declared.deeds.Entry.{Entry};
ghost use Rattle.com_model.specs.declared.scenario.Scenario.{Scenario};
ghost use Rattle.com_model.specs.Cases.{direct_call, direct_call_2};
ghost use Rattle.com_model.specs.Rules.{legal};
ghost use Rattle.com_model.specs.Safe.{EachEntry, EachPrefix};
ghost use Rattle.com_model.specs.Apartments.{apartments};
ghost use Rattle.com_model.specs.Books.{books};
ghost use Rattle.com_refs_books.specs.Changes.{Drops, Join, Return, Split, Withdraw};
ghost use Rattle.com_laws_amounts.specs.Amounts.{Covers, CoversRows, CoversReturns, NothingOverdrawn};
ghost use Rattle.com_laws_amounts.specs.Integers.{AreEqual, Balances, NoneNegative, numbers};
ghost use Rattle.com_laws_amounts.specs.Broken.{nobody_owns, no_places, packet_alone, proxy_alone};
ghost use Rattle.com_laws_amounts.specs.Broken.{revoked_out_of_nothing, lost, stub_alone};

/// In every legal history, and of every scenario, formed or not: no row of an entry takes more references
/// from a stub or from a proxy than it has. A packet that a row takes references from is outstanding, and a
/// cookie stands; each gives all that it has, and ends. And what the proxies of apartments without place give
/// back at the end of an entry, the stub has.
pub fn nothing_overdrawn()
    ensures { (s : Scenario) (h : List Entry) → legal s h → EachEntry (NothingOverdrawn s) h }
{}

/// Counted over the integers by the same rows, with a subtraction that never stops, the numbers of stubs and
/// proxies are after every prefix of a legal history those of the books (`same`). So none is ever below 0
/// (`none`). What packets and cookies hold is never subtracted from: they are made with a number, and end.
pub fn none_negative()
    ensures same { (s : Scenario) (h : List Entry) → legal s h
        → EachPrefix (λ h. AreEqual (numbers s h) (books s h)) h }
    ensures none { (s : Scenario) (h : List Entry) → legal s h
        → EachPrefix (λ h. NoneNegative (numbers s h)) h }
{}

/// After every prefix of a legal history, over the integers: for every object and interface the number of the
/// stub is the sum of what the proxies of all apartments, all packets and all cookies hold of it.
pub fn balances_over_integers()
    ensures { (s : Scenario) (h : List Entry) → legal s h
        → EachPrefix (λ h. Balances (apartments h) (books s h) (numbers s h)) h }
{}

/// No clause is empty. A stub without references covers no packet's return, a proxy without references gives
/// none to a packet, and neither packet nor cookie is taken from that is not there (`stub`, `proxy`,
/// `packet`, `cookie`); so with a row (`row`), with what a proxy gives back (`returns`), and with a history
/// that is legal but for its last entry (`entry`). There the integers come to less than none (`below`), which
/// the laws refuse (`negative`), and to another sum than what is held (`balance`).
pub fn clauses_bite()
    ensures stub { Covers packet_alone (Return 1) → ⊥ }
    ensures proxy { Covers stub_alone (Split 1 1 1 2) → ⊥ }
    ensures packet { Covers stub_alone (Join 1 1) → ⊥ }
    ensures cookie { Covers stub_alone (Withdraw 1) → ⊥ }
    ensures row { CoversRows nobody_owns packet_alone (Drops 1 ∷ []) → ⊥ }
    ensures returns { CoversReturns 4 no_places proxy_alone → ⊥ }
    ensures entry { legal direct_call direct_call_2
        × (EachEntry (NothingOverdrawn direct_call) revoked_out_of_nothing → ⊥) }
    ensures below { lost.stub 1 1 ≡ negsuc 4 }
    ensures negative { NoneNegative lost → ⊥ }
    ensures balance { Balances 4 packet_alone lost → ⊥ }
{}
