//! The release of objects in every legal history, stated on functions that do nothing.
#![tactic(auto)]

ghost use Rattle.std.specs.Prelude.{◌≡◌, List, filter};
ghost use Rattle.com_model.specs.declared.deeds.Entry.{Entry};
ghost use Rattle.com_model.specs.declared.scenario.Scenario.{Scenario};
ghost use Rattle.com_model.specs.Dying.{is_dying, fallen};
ghost use Rattle.com_model.specs.Formed.{Formed};
ghost use Rattle.com_model.specs.Rules.{legal};
ghost use Rattle.com_model.specs.Safe.{EachEntry, Release};
ghost use Rattle.com_laws_release.specs.Falling.{StaysDying, first_fallen};

/// In every legal history of a formed scenario an object that is dying stays dying until its Final: it is not
/// entered, nothing marshals it, and no apartment that owns it gets a place of it again.
pub fn dying_stays()
    ensures { (s : Scenario) (h : List Entry) → Formed s → legal s h → EachEntry (StaysDying s) h }
{}

/// In every legal history of a formed scenario the dying objects stand in the order of the entries after
/// which each first was dying, and by number where one entry made several so.
pub fn falls_in_order()
    ensures { (s : Scenario) (h : List Entry) → Formed s → legal s h
        → fallen s h ≡ filter (is_dying s h) (first_fallen s h) }
{}

/// In every legal history of a formed scenario each object has at most one Final. It is made in a lane that
/// serves the object's owner, while the object is dying and not connected. No Enter of the object comes
/// afterwards, and no apartment that owns it has a place of it in any later prefix.
pub fn release()
    ensures { (s : Scenario) (h : List Entry) → Formed s → legal s h → Release s h }
{}
