//! The packets of each call.
ghost use Rattle.std.specs.Prelude.{◌≡◌, ◌+◌, ◌<◌, ◌≤◌, ◌^◌, List, [], ◌∷◌, ◌++◌, length, OnOk, OnErr};
ghost use Rattle.com_base.specs.declared.limits.TheConstants.{PARAMETER_LIMIT};
ghost use Rattle.com_refs_rows.specs.declared.calls.CallPackets.{CallPackets};
ghost use Rattle.com_refs_rows.specs.Calls.{call_at, no_packets, with_result};

use com_base::Memory;
use std::alloc::Global;
use std::marker::Model;

/// The packets of one call: those of its arguments have numbers one after another, from `first` on, and that
/// of its result has the number `result`, which is 0 where there is none.
#[derive(Debug, Clone, Copy, PartialEq, Eq)]
pub struct CallPackets {
    /// The number of the first packet of its arguments.
    pub first: u32,
    /// How many packets its arguments have.
    pub count: u32,
    /// The number of its result's packet, and 0 where there is none.
    pub result: u32,
}

// What a call has whose arguments and result have no packets.
const NO_PACKETS: CallPackets = CallPackets {
    first: 0,
    count: 0,
    result: 0,
};

/// The packets of each call, in order of the calls' numbers from 1 on.
#[derive(Debug, Drop)]
pub struct CallTable {
    rows: Vec<CallPackets>,
}

impl Model for CallTable {
    ghost use Rattle.std.specs.Prelude.{List};
    ghost use Rattle.com_refs_rows.specs.declared.calls.CallPackets.{CallPackets};
    ghost use Rattle.com_refs_rows.specs.Calls.{AreNumbered};

    ghost Value = { List CallPackets };

    ghost view = { λ t. t.rows.items };

    ghost invariant = { λ t. AreNumbered t.rows.items };
}

impl CallTable {
    /// No call. It takes no memory.
    pub fn new(alloc: Global) -> CallTable
        ensures { result ≡ [] }
    {
        CallTable {
            rows: Vec::new(alloc),
        }
    }

    /// How many calls were issued.
    pub fn len(&self) -> usize
        ensures { result ≡ length self.now }
    {
        self.rows.len()
    }

    /// The packets of a call; none where there is no such call.
    pub fn get(&self, call: u32) -> CallPackets
        ensures row { result ≡ call_at self.now call }
        ensures fits { result.first + result.count < 2 ^ 32 }
        ensures few { result.count ≤ PARAMETER_LIMIT }
    {
        match call.checked_sub(1) {
            None => NO_PACKETS,
            Some(place) => match self.rows.get(place as usize) {
                None => NO_PACKETS,
                Some(row) => *row,
            },
        }
    }

    /// One call more, without packets.
    pub fn push(&mut self) -> Result<(), Memory>
        ensures ok { OnOk result (self.new ≡ self.old ++ no_packets ∷ []) }
        ensures err { OnErr result (self.new ≡ self.old) }
    {
        self.rows.push(NO_PACKETS)?;
        Ok(())
    }

    /// The packets of the arguments of the last call, which had none: no more than a method may have
    /// parameters. Numbers past the last one that there is are none.
    pub fn set_last(&mut self, first: u32, count: u32)
        requires fits { first + count < 2 ^ 32 }
        requires few { count ≤ PARAMETER_LIMIT }
        ensures { (rows : List CallPackets) → self.old ≡ rows ++ no_packets ∷ []
            → self.new ≡ rows ++ record { first = first; count = count; result = 0 } ∷ [] }
    {
        let Some(place) = self.rows.len().checked_sub(1) else {
            return;
        };
        self.rows[place] = CallPackets {
            first,
            count,
            result: 0,
        };
    }

    /// The packet of the result of a call, or 0 where it has none.
    pub fn set_result(&mut self, call: u32, packet: u32)
        ensures { self.new ≡ with_result call packet self.old }
    {
        let Some(place) = call.checked_sub(1) else {
            return;
        };
        let at = place as usize;
        if at < self.rows.len() {
            let row = &mut self.rows[at];
            row.result = packet;
        }
    }
}
