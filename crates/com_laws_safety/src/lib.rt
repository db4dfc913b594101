//! Laws of every legal history, stated on functions that do nothing: what is safe, in the words of the
//! model's definitions.
#![tactic(auto)]

ghost use Rattle.std.specs.Prelude.{List};
ghost use Rattle.com_model.specs.declared.deeds.Entry.{Entry};
ghost use Rattle.com_model.specs.declared.scenario.Scenario.{Scenario};
ghost use Rattle.com_model.specs.Formed.{Formed};
ghost use Rattle.com_model.specs.Openers.{openers};
ghost use Rattle.com_model.specs.Rules.{legal};
ghost use Rattle.com_model.specs.Safe.{Apartment, Causes, EachEntry, EachPrefix, OwnReply, Replies, maker};
ghost use Rattle.com_model.specs.Safe.{MadeOnTop, OneStack, Reentry};
ghost use Rattle.com_laws_safety.specs.Released.{ReleasesBare, ReleasesOnce, StaySevered};

/// In every legal history each entry has its cause. A Back has the call's answer. Each Refuse and Verdict is
/// what admission gives. Each other entry that is refused is the entry of the lane's own next action.
pub fn causes()
    ensures { (s : Scenario) (h : List Entry) → legal s h → Causes s h }
{}

/// In every legal history replies are the call's own. An Enter has the values that were sent with its call,
/// and no answer was due before it. A Leave is what the body's step gives. A Back has the call's answer. And
/// each call has one Out, at most one Enter after it, at most one Leave after that, and at most one Back
/// after its Out.
pub fn own_replies()
    ensures own { (s : Scenario) (h : List Entry) → legal s h → EachEntry (OwnReply s) h }
    ensures whole { (s : Scenario) (h : List Entry) → legal s h → Replies s h }
{}

/// In every legal history of a formed scenario a body's action is made while its Enter is the innermost
/// opener of the lane, a script's while nothing is open there, and those on the lane's apartment and pumps by
/// scripts alone. A scenario that is not formed can have a body that initialises its lane.
pub fn made_on_top()
    ensures { (s : Scenario) (h : List Entry) → Formed s → legal s h
        → EachEntry (λ h l d. MadeOnTop (maker d) (openers h l)) h }
{}

/// In every legal history a call posted to an STA is admitted as the first of the inbox, above a pump, a
/// posted call that waits without answer, or nothing in the host's lane, with its call type and the filter's
/// answer. A call posted to the MTA is admitted by a pool lane without opener. A direct or switched call is
/// entered while its own Out is the innermost opener.
pub fn reentry()
    ensures { (s : Scenario) (h : List Entry) → legal s h → Reentry s h }
{}

/// In every legal history of a formed scenario a body runs in an apartment that owns its object, and in that
/// apartment's lane; a body of an agile object or of one in the neutral apartment runs in the caller's lane.
pub fn apartment()
    ensures { (s : Scenario) (h : List Entry) → Formed s → legal s h → Apartment s h }
{}

/// In every legal history of a formed scenario, after each of its entries, the openers of each lane nest, and
/// each open body of an STA stands in the lane that serves it; and a body's action is made while its Enter is
/// the innermost opener of the lane.
pub fn one_stack()
    ensures { (s : Scenario) (h : List Entry) → Formed s → legal s h → OneStack s h }
{}

/// In every legal history each Final is the first of its object. It is made in a lane that serves the
/// object's owner, while the object is dying and not connected.
pub fn released_once()
    ensures { (s : Scenario) (h : List Entry) → legal s h → EachEntry (ReleasesOnce s) h }
{}

/// In every legal history, where an object has its Final, no apartment that owns it has a place of it, and no
/// Enter of it is open.
pub fn bare_at_final()
    ensures { (s : Scenario) (h : List Entry) → legal s h → EachEntry (ReleasesBare s) h }
{}

/// After every prefix of a legal history each object that had its Final is not connected, no stub counts a
/// public reference of it, and no proxy holds one.
pub fn stays_severed()
    ensures { (s : Scenario) (h : List Entry) → legal s h → EachPrefix (StaySevered s) h }
{}
