//! The balance of public references over every legal history, stated on functions that do nothing.
#![tactic(auto)]

ghost use Rattle.std.specs.Prelude.{List};
ghost use Rattle.com_model.specs.declared.deeds.Entry.{Entry};
ghost use Rattle.com_model.specs.declared.scenario.Scenario.{Scenario};
ghost use Rattle.com_model.specs.Rules.{legal};
ghost use Rattle.com_model.specs.Formed.{Formed};
ghost use Rattle.com_model.specs.Safe.{EachPrefix, Balanced, Balance};

/// After every prefix of a legal history, and of every scenario, formed or not: for every object and
/// interface the stub's count is the sum of what the proxies of all apartments, all packets and all cookies
/// hold of it.
pub fn stubs_balance()
    ensures { (s : Scenario) (h : List Entry) → legal s h → EachPrefix (Balanced s) h }
{}

/// After every prefix of a legal history of a formed scenario: the stub's counts are as above, and a
/// connected object's proxy place has a proxy with at least one public reference of its interface.
pub fn places_secured()
    ensures { (s : Scenario) (h : List Entry) → Formed s → legal s h → Balance s h }
{}
