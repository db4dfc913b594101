//! Causalities: which calls belong to one logical thread, and the call type of a call that arrives.
#![tactic(auto)]

ghost use Rattle.std.specs.Prelude.{◌≡◌, ◌+◌, ◌-◌, ◌^◌, ◌<◌};
ghost use Rattle.com_cause.specs.CallType.{call_type as type_of_call};

use std::marker::Model;

/// CALLTYPE_TOPLEVEL: the apartment has no outgoing call open.
pub const TOP_LEVEL: u8 = 1;
/// CALLTYPE_NESTED: the call belongs to the same causality as an outgoing call that is open.
pub const NESTED: u8 = 2;
/// CALLTYPE_TOPLEVEL_CALLPENDING: an outgoing call is open, and the call belongs to none of them.
pub const TOP_LEVEL_CALL_PENDING: u8 = 4;

/// The CALLTYPE of a posted call of causality `cause`, at an apartment whose open outgoing calls have
/// the causalities `outs`.
///
/// All open calls count, and not the topmost alone (CALLTYPE of the documentation of IMessageFilter;
/// Essential COM, chapter 5, "Message filters").
pub fn call_type(outs: &[u32], cause: u32) -> u8
    ensures { result ≡ type_of_call outs.now cause }
{
    if outs.is_empty() {
        TOP_LEVEL
    } else if outs.contains(&cause) {
        NESTED
    } else {
        TOP_LEVEL_CALL_PENDING
    }
}

/// A source of causality numbers, seen as how many it gave.
#[derive(Debug, Drop)]
pub struct Causes {
    given: u32,
}

impl Model for Causes {
    ghost use Rattle.std.specs.Prelude.{ℕ};

    ghost Value = { ℕ };

    ghost view = { λ c. c.given };
}

impl Causes {
    /// A source that gave no number yet.
    pub fn new() -> Self
        ensures { result ≡ 0 }
    {
        Causes { given: 0 }
    }

    /// The next number. The first is 1, and none comes twice.
    pub fn fresh(&mut self) -> u32
        requires { self.old < 2 ^ 32 - 1 }
        ensures next { result ≡ self.old + 1 }
        ensures given { self.new ≡ self.old + 1 }
    {
        self.given += 1;
        self.given
    }
}
