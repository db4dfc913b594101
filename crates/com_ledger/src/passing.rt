//! The books of an entry that moves no reference and has no row in them.
ghost use Rattle.std.specs.Prelude.{◌≡◌, ◌==◌, ℕ, [], not, OnErr, OnOk};
ghost use Rattle.com_ledger.specs.Quiet.{LeavesBooks, calls_passed};
ghost use Rattle.com_refs_holders.specs.Places.{Counts};
ghost use Rattle.com_refs.specs.Totals.{Totals};
ghost use Rattle.com_refs_rows.specs.Calls.{call_at};
ghost use Rattle.com_refs_rows.specs.Entries.{Applies, Around, tally};

use crate::ledger::Ledger;
use com_base::Memory;
use com_model::Deed;
use com_refs_rows::CallTable;

// The call that an Out issues has no packets yet.
fn pass_call(calls: &mut CallTable, deed: &Deed) -> Result<(), Memory>
    ensures ok { OnOk result (calls.new ≡ calls_passed deed.now calls.old) }
    ensures err { OnErr result (calls.new ≡ calls.old) }
{
    match deed {
        Deed::Out { .. } => calls.push(),
        _ => Ok(()),
    }
}

impl Ledger {
    /// Whether packets carry the arguments of a call.
    pub fn has_arguments(&self, call: u32) -> bool
        ensures { result ≡ not ((call_at self.now.calls call).count == 0) }
    {
        self.books.calls.get(call).count != 0
    }

    /// Whether a packet carries the result of a call.
    pub fn has_result(&self, call: u32) -> bool
        ensures { result ≡ not ((call_at self.now.calls call).result == 0) }
    {
        self.books.calls.get(call).result != 0
    }

    /// Makes of the books what an entry makes of them that moves no reference and has no row in them. They
    /// stay, but for a call that an Out issues, and no object lost its last holder in the entry. The only
    /// error is want of memory, and then nothing has changed.
    pub fn pass(&mut self, deed: &Deed) -> Result<(), Memory>
        ensures tables { self.new.tables ≡ self.old.tables }
        ensures calls { OnOk result (self.new.calls ≡ calls_passed deed.now self.old.calls) }
        ensures touched { OnOk result (self.new.touched ≡ []) }
        ensures applies { OnOk result ((g : Around)
            → LeavesBooks g deed.now self.old.tables self.old.calls self.new.calls
            → Applies g deed.now [] [] (tally self.old.tables self.old.calls)
            (tally self.new.tables self.new.calls)) }
        ensures totals { (n : ℕ) (places : ℕ → ℕ → ℕ) → Counts n places self.new.tables
            → Totals n places self.new.tables }
        ensures err { OnErr result (self.new ≡ self.old) }
    {
        self.books.refs.tells();
        self.books.refs.rests();
        pass_call(&mut self.books.calls, deed)?;
        self.books.touched.clear();
        Ok(())
    }
}
