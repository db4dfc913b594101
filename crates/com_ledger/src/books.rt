//! What a ledger keeps.

ghost use Rattle.std.specs.Prelude.{◌≡◌, []};

use com_reference_moves::Move;
use com_refs::Refs;
use com_refs_rows::CallTable;
use std::alloc::Global;

/// Who holds references, the packets of each call, the places that the row of the entry brought, the
/// interfaces of a new object, and the objects that lost their last holder in the entry.
#[derive(Debug, Drop)]
pub struct Books {
    pub refs: Refs,
    pub calls: CallTable,
    pub brought: Vec<Move>,
    pub set: Vec<u16>,
    pub touched: Vec<u32>,
}

impl Books {
    /// Nothing is held. It takes no memory.
    pub fn new(alloc: Global) -> Books
        ensures refs { result.refs.objects ≡ [] }
        ensures proxies { result.refs.proxies ≡ [] }
        ensures packets { result.refs.packets ≡ [] }
        ensures cookies { result.refs.cookies ≡ [] }
        ensures stubs { result.refs.stubs ≡ [] }
        ensures issued { result.refs.issued ≡ 0 }
        ensures calls { result.calls ≡ [] }
        ensures touched { result.touched.items ≡ [] }
    {
        Books {
            refs: Refs::new(alloc),
            calls: CallTable::new(alloc),
            brought: Vec::new(alloc),
            set: Vec::new(alloc),
            touched: Vec::new(alloc),
        }
    }
}
