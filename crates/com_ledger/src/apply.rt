//! The change of the books by an entry.
ghost use Rattle.std.specs.Prelude.{◌≡◌, ◌+◌, ◌<◌, ◌≤◌, ◌^◌, ℕ, [], false, true, if◌then◌else◌, IsTrue};
ghost use Rattle.std.specs.Prelude.{OnErr, OnOk, List, length, take, vec_len, vec_capacity};
ghost use Rattle.com_base.specs.declared.limits.TheConstants.{PARAMETER_LIMIT};
ghost use Rattle.com_refs_holders.specs.Places.{Counts, SamePlaces};
ghost use Rattle.com_refs_holders.specs.Tables.{books_of, offers};
ghost use Rattle.com_model.specs.Lists.{is_member, number_or_zero};
ghost use Rattle.com_model.specs.Objects.{makes};
ghost use Rattle.com_reference_moves.specs.declared.moves.Move.{Move};
ghost use Rattle.com_reference_moves.specs.Steps.{movings_of};
ghost use Rattle.com_refs_rows.specs.Books.{Exchanged};
ghost use Rattle.com_objects.specs.Settled.{Rise};
ghost use Rattle.com_ledger.specs.Ties.{NotesLost};
ghost use Rattle.com_refs_rows.specs.Entries.{AllGiven, Gives, Closes, Applies, KeepsHeldBy};
ghost use Rattle.com_refs_rows.specs.Entries.{around, tally};
ghost use Rattle.com_refs_rows.specs.Entries.{asked_packets, ended_objects};
ghost use Rattle.com_refs_rows.specs.Entries.{is_of_reference};
ghost use Rattle.com_refs_rows.specs.Entries.{most_left, row_steps};
ghost use Rattle.com_refs_rows.specs.Fits.{FitsBooks, FitsRow, most_gained, most_given};
ghost use Rattle.com_refs_rows.specs.Moving.{plus, AllBelow, AllOffered, Climbs, HoldsMore, Touches};
ghost use Rattle.com_refs_rows.specs.Moving.{TouchesCounted};
ghost use Rattle.com_refs_rows.specs.Owners.{OffersMore};
ghost use Rattle.com_scene.specs.Ranges.{FitsDeed};

use crate::books::Books;
use crate::context::Context;
use crate::ends::{end_connection, end_cookie, end_home, end_packet, give_up};
use crate::ledger::Ledger;
use com_base::{Memory, RefValue};
use com_deeds::number_or_zero;
use com_model::{Deed, Entry};
use com_objects::Objects;
use com_reference_moves::{Move, Moves};
use com_refs::{MOST_ISSUED, Refs};
use com_refs_rows::{
    Activation, enter_back, enter_get, enter_made, enter_marshal, enter_query, enter_register,
    enter_unmarshal, gain_all, is_left, issue, lose_all, read_all, reply,
};

// What is carried, where there are bytes.
fn carried_in<'a>(carried: &'a [RefValue], is_marshalled: bool) -> &'a [RefValue]
    ensures { result.now ≡ (if is_marshalled then carried.now else []) }
{
    if is_marshalled {
        return carried;
    }
    &carried[..0]
}

// Whether what the row brought stands first in what comes to places.
fn stands_first(brought: &[Move], gained: &[Move]) -> bool
    ensures within { IsTrue result → length brought.now ≤ length gained.now }
    ensures first { IsTrue result → take (length brought.now) gained.now ≡ brought.now }
    ensures none { brought.now ≡ [] → IsTrue result }
    ensures exact { length brought.now ≤ length gained.now
        → take (length brought.now) gained.now ≡ brought.now → IsTrue result }
{
    if brought.len() > gained.len() {
        return false;
    }
    for (place, moved) in brought.iter().enumerate() {
        if gained[place] != *moved {
            return false;
        }
    }
    true
}

// What comes to places, with what the row brought: that stands first, but for a result that comes back to no
// slot.
fn take(refs: &mut Refs, touched: &mut Vec<u32>, brought: &[Move], gained: &[Move])
    requires known { AllOffered refs.old gained.now }
    requires few { refs.old.issued + length gained.now ≤ MOST_ISSUED }
    requires room { length gained.now ≤ refs.old.spare }
    requires written { vec_len touched.old + length brought.now ≤ vec_capacity touched.old }
    ensures exchanged { Exchanged brought.now gained.now refs.old refs.new }
    ensures offers { (x j : ℕ) → offers refs.new x j ≡ offers refs.old x j }
    ensures issued { refs.new.issued ≤ refs.old.issued + length gained.now }
    ensures touched { (n : ℕ) (places : ℕ → ℕ → ℕ) → AllBelow n brought.now
        → AllBelow n gained.now → Counts n (plus places brought.now) refs.old
        → Touches refs.old refs.new touched.old.items touched.new.items }
    ensures climbs { Climbs 0 touched.old.items → Climbs 0 touched.new.items }
    ensures len { vec_len touched.new ≤ vec_len touched.old + length brought.now }
    ensures capacity { vec_capacity touched.old ≤ vec_capacity touched.new }
{
    if stands_first(brought, gained) {
        gain_all(refs, &gained[brought.len()..]);
        return;
    }
    gain_all(refs, gained);
    lose_all(refs, touched, brought);
}

// Leaves the numbers of objects, of which so many were made.
fn keep_made(touched: &mut Vec<u32>, objects: u32)
    requires { Climbs 0 touched.old.items }
    ensures rise { Rise 0 touched.new.items objects }
    ensures kept { (o : ℕ) → 0 < o → o ≤ objects → is_member o touched.old.items ≡ true
        → is_member o touched.new.items ≡ true }
    ensures len { vec_len touched.new ≤ vec_len touched.old }
{
    touched.retain(|object| *object > 0 && *object <= objects);
}

// How many objects at most an entry leaves without a holder: those of lost places, of places that its row
// brought, and of what its row ends.
fn most_noted(deed: &Deed, objects: &Objects, arguments: usize, lost: &[Move]) -> usize
    requires { arguments < 2 ^ 32 }
    ensures value { result ≡ length lost.now + arguments + 3
        + ended_objects (length objects.now.tables.makings) deed.now }
    ensures few { result + 1 < 2 ^ 64 }
{
    let ended = match deed {
        Deed::Uninit { .. } => objects.len() as usize,
        _ => 0,
    };
    lost.len() + arguments + 3 + ended
}

impl Books {
    // The packets of a call's arguments that an Enter reads.
    fn arguments_of(&self, deed: &Deed) -> u32
        ensures value { result ≡ asked_packets self.now.calls deed.now }
        ensures few { result ≤ PARAMETER_LIMIT }
    {
        match deed {
            Deed::Enter { call, .. } => self.calls.get(*call).count,
            _ => 0,
        }
    }

    // Makes room for the entry. Nothing changes but room. The only error is want of memory.
    fn prepare(
        &mut self,
        deed: &Deed,
        context: Context<'_>,
        gained: &[Move],
        lost: &[Move],
    ) -> Result<(), Memory>
        requires carried { length context.carried.now ≤ PARAMETER_LIMIT }
        requires gained { length gained.now ≤ most_gained }
        requires numbers { self.old.refs.issued + most_given ≤ MOST_ISSUED }
        ensures refs { self.new.refs ≡ record self.old.refs { spare = self.new.refs.spare } }
        ensures places { SamePlaces self.old.refs self.new.refs }
        ensures books { books_of self.new.refs ≡ books_of self.old.refs }
        ensures calls { self.new.calls ≡ self.old.calls }
        ensures touched { self.new.touched.items ≡ self.old.touched.items }
        ensures steps { OnOk result (row_steps self.new.calls context.entry.carried.now deed.now
            + length gained.now ≤ most_given) }
        ensures few { OnOk result (self.new.refs.issued
            + row_steps self.new.calls context.entry.carried.now deed.now + length gained.now < MOST_ISSUED) }
        ensures room { OnOk result (row_steps self.new.calls context.entry.carried.now deed.now
            + length gained.now ≤ self.new.refs.spare) }
        ensures brought { OnOk result (asked_packets self.new.calls deed.now + 1
            ≤ vec_capacity self.new.brought) }
        ensures noted { OnOk result (length lost.now + asked_packets self.new.calls deed.now + 3
            + ended_objects (length context.entry.objects.now.tables.makings) deed.now
            ≤ vec_capacity self.new.touched) }
    {
        let arguments = self.arguments_of(deed) as usize;
        let steps = arguments + context.carried.len() + gained.len() + 2;
        self.refs.reserve(steps as u32)?;
        self.brought.clear();
        self.brought.reserve(arguments + 1)?;
        let noted = most_noted(deed, context.objects, arguments, lost);
        self.touched
            .reserve(noted.saturating_sub(self.touched.len()))?;
        Ok(())
    }

    // The row of an entry that gives: it may bring places.
    fn enter_reference(
        &mut self,
        deed: &Deed,
        context: Context<'_>,
        apartment: u32,
    ) -> Result<(), Memory>
        requires deed { FitsDeed deed.now }
        requires fits { FitsRow context.classes.now context.carried.now apartment
            (tally self.old.refs self.old.calls) deed.now }
        requires carried { length context.carried.now ≤ PARAMETER_LIMIT }
        requires few { self.old.refs.issued
            + row_steps self.old.calls context.carried.now deed.now < MOST_ISSUED }
        requires room { row_steps self.old.calls context.carried.now deed.now ≤ self.old.refs.spare }
        requires places { vec_len self.old.brought + asked_packets self.old.calls deed.now + 1
            ≤ vec_capacity self.old.brought }
        ensures gives { OnOk result (Gives
            (around context.entry.calls.now.tables context.entry.objects.now.tables context.entry.classes.now
            context.entry.carried.now apartment) deed.now
            (tally self.old.refs self.old.calls) self.old.brought.items
            (tally self.new.refs self.new.calls) self.new.brought.items) }
        ensures more { OnOk result (KeepsHeldBy apartment deed.now self.old.refs self.new.refs) }
        ensures noted { self.new.touched ≡ self.old.touched }
        ensures err_refs { OnErr result (self.new.refs ≡ self.old.refs) }
        ensures err_calls { OnErr result (self.new.calls ≡ self.old.calls) }
        ensures issued { self.new.refs.issued
            ≤ self.old.refs.issued + row_steps self.old.calls context.entry.carried.now deed.now }
        ensures spare { self.old.refs.spare
            ≤ self.new.refs.spare + row_steps self.old.calls context.entry.carried.now deed.now }
        ensures brought { vec_len self.new.brought
            ≤ vec_len self.old.brought + asked_packets self.old.calls deed.now + 1 }
        ensures offers { OnOk result
            (OffersMore context.entry.classes.now (makes deed.now) self.old.refs self.new.refs) }
    {
        match deed {
            Deed::Made {
                object,
                apartment: owner,
                class,
                iface,
                ..
            } => enter_made(
                &mut self.refs,
                &mut self.brought,
                &mut self.set,
                context.classes,
                apartment,
                &Activation {
                    object: *object,
                    owner: *owner,
                    class: *class,
                    iface: *iface,
                },
            ),
            Deed::Query { object, iface, hr } => {
                let refs = &mut self.refs;
                enter_query(refs, &mut self.brought, apartment, *object, *iface, *hr);
                Ok(())
            }
            Deed::Marshal {
                packet,
                mode,
                held,
                ..
            } => {
                enter_marshal(&mut self.refs, apartment, *packet, *mode, *held);
                Ok(())
            }
            Deed::Unmarshal { packet, .. } => {
                enter_unmarshal(&mut self.refs, &mut self.brought, apartment, *packet);
                Ok(())
            }
            Deed::Register { cookie, held, .. } => {
                enter_register(&mut self.refs, *cookie, *held);
                Ok(())
            }
            Deed::Get { cookie, held, .. } => {
                enter_get(&mut self.refs, &mut self.brought, apartment, cookie, *held);
                Ok(())
            }
            _ => self.enter_call(deed, context, apartment),
        }
    }

    // The rows of an entry of a call, but for a packet that is given up.
    fn enter_call(
        &mut self,
        deed: &Deed,
        context: Context<'_>,
        apartment: u32,
    ) -> Result<(), Memory>
        requires fits { FitsRow context.classes.now context.carried.now apartment
            (tally self.old.refs self.old.calls) deed.now }
        requires carried { length context.carried.now ≤ PARAMETER_LIMIT }
        requires few { self.old.refs.issued
            + row_steps self.old.calls context.carried.now deed.now < MOST_ISSUED }
        requires room { row_steps self.old.calls context.carried.now deed.now ≤ self.old.refs.spare }
        requires places { vec_len self.old.brought + asked_packets self.old.calls deed.now + 1
            ≤ vec_capacity self.old.brought }
        ensures gives { OnOk result (is_of_reference deed.now ≡ false
            → Gives (around context.entry.calls.now.tables context.entry.objects.now.tables
            context.entry.classes.now context.entry.carried.now apartment) deed.now
            (tally self.old.refs self.old.calls) self.old.brought.items
            (tally self.new.refs self.new.calls) self.new.brought.items) }
        ensures more { OnOk result (HoldsMore self.old.refs self.new.refs) }
        ensures noted { self.new.touched ≡ self.old.touched }
        ensures err_refs { OnErr result (self.new.refs ≡ self.old.refs) }
        ensures err_calls { OnErr result (self.new.calls ≡ self.old.calls) }
        ensures issued { self.new.refs.issued
            ≤ self.old.refs.issued + row_steps self.old.calls context.entry.carried.now deed.now }
        ensures spare { self.old.refs.spare
            ≤ self.new.refs.spare + row_steps self.old.calls context.entry.carried.now deed.now }
        ensures brought { vec_len self.new.brought
            ≤ vec_len self.old.brought + asked_packets self.old.calls deed.now + 1 }
        ensures offers { OnOk result ((x j : ℕ) → offers self.old.refs x j ≡ true
            → offers self.new.refs x j ≡ true) }
    {
        match deed {
            Deed::Out { bytes, .. } => {
                let carried = carried_in(context.carried, bytes.is_some());
                issue(&mut self.refs, &mut self.calls, apartment, carried)
            }
            Deed::Enter {
                call,
                apartment,
                ..
            } => {
                let packets = self.calls.get(*call);
                read_all(&mut self.refs, &mut self.brought, *apartment, packets);
                Ok(())
            }
            Deed::Leave { call, bytes, .. } => {
                let carried = carried_in(context.carried, bytes.is_some());
                reply(&mut self.refs, &mut self.calls, apartment, *call, carried);
                Ok(())
            }
            Deed::Back { call, .. } => {
                if !is_left(context.calls, *call) {
                    return Ok(());
                }
                let number = self.calls.get(*call).result;
                enter_back(&mut self.refs, &mut self.brought, apartment, number);
                Ok(())
            }
            _ => Ok(()),
        }
    }

    // The row of an entry that ends a holder which is no place: a packet, a cookie, or all of a connection.
    fn enter_end(&mut self, deed: &Deed, context: Context<'_>, apartment: u32)
        requires room { vec_len self.old.touched
            + ended_objects (length context.objects.now.tables.makings) deed.now
            < vec_capacity self.old.touched }
        ensures closes { Closes
            (around context.entry.calls.now.tables context.entry.objects.now.tables context.entry.classes.now
            context.entry.carried.now apartment) deed.now (tally self.old.refs self.old.calls)
            (tally self.new.refs self.old.calls) }
        ensures offers { (x j : ℕ) → offers self.new.refs x j ≡ offers self.old.refs x j }
        ensures issued { self.new.refs.issued ≡ self.old.refs.issued }
        ensures touched { TouchesCounted self.old.refs self.new.refs
            self.old.touched.items self.new.touched.items }
        ensures climbs { Climbs 0 self.old.touched.items → Climbs 0 self.new.touched.items }
        ensures calls { self.new.calls ≡ self.old.calls }
        ensures len { vec_len self.new.touched ≤ vec_len self.old.touched
            + ended_objects (length context.entry.objects.now.tables.makings) deed.now + 1 }
        ensures capacity { vec_capacity self.old.touched ≤ vec_capacity self.new.touched }
    {
        let refs = &mut self.refs;
        let touched = &mut self.touched;
        match deed {
            Deed::DropPacket { packet, .. } => end_packet(refs, touched, *packet),
            Deed::Revoke { cookie, hr } => end_cookie(refs, touched, cookie, *hr),
            Deed::Back { call, .. } => {
                if is_left(context.calls, *call) {
                    return;
                }
                let number = self.calls.get(*call).result;
                give_up(refs, touched, number);
            }
            Deed::Disconnect { object, hr } => end_connection(refs, touched, *object, *hr),
            Deed::Uninit { home, count } => {
                end_home(refs, touched, context.objects, *home, *count);
            }
            _ => {}
        }
    }

    // The whole change by an entry: first the row that gives, then what comes to places, then the row that
    // ends a holder, and then what leaves places. After an error nothing has changed but room.
    fn change(&mut self, entry: &Entry, context: Context<'_>, moves: &Moves) -> Result<(), Memory>
        requires deed { FitsDeed entry.now.deed }
        requires fits { FitsBooks context.classes.now context.carried.now (number_or_zero context.running)
            (tally self.old.refs self.old.calls) entry.now.deed }
        requires known { (gained : List Move) → movings_of gained ≡ moves.now.gained
            → AllGiven context.classes.now self.old.refs entry.now.deed gained }
        requires gained { length moves.now.gained ≤ most_gained }
        ensures applies { OnOk result ((gained lost : List Move) → movings_of gained ≡ moves.now.gained
            → movings_of lost ≡ moves.now.lost
            → Applies (around context.entry.calls.now.tables context.entry.objects.now.tables
            context.entry.classes.now context.entry.carried.now
            (number_or_zero context.entry.running)) entry.now.deed gained lost
            (tally self.old.refs self.old.calls) (tally self.new.refs self.new.calls)) }
        ensures touched { OnOk result ((gained lost : List Move) → movings_of gained ≡ moves.now.gained
            → movings_of lost ≡ moves.now.lost
            → NotesLost (around context.entry.calls.now.tables context.entry.objects.now.tables
            context.entry.classes.now context.entry.carried.now
            (number_or_zero context.entry.running)) entry.now.deed gained lost
            (tally self.old.refs self.old.calls)
            (tally self.new.refs self.new.calls) self.new.touched.items) }
        ensures offers { OnOk result
            (OffersMore context.entry.classes.now (makes entry.now.deed) self.old.refs self.new.refs) }
        ensures issued { self.new.refs.issued ≤ self.old.refs.issued + most_given }
        ensures rise { OnOk result (Rise 0 self.new.touched.items (length self.new.refs.objects)) }
        ensures few { OnOk result (length self.new.touched.items
            ≤ most_left self.old.calls context.entry.objects.now.tables entry.now.deed moves.now) }
        ensures err_refs { OnErr result
            (self.new.refs ≡ record self.old.refs { spare = self.new.refs.spare }) }
        ensures err_calls { OnErr result (self.new.calls ≡ self.old.calls) }
        ensures err_touched { OnErr result (self.new.touched.items ≡ self.old.touched.items) }
    {
        let gained = moves.gains();
        let lost = moves.losses();
        self.prepare(&entry.deed, context, gained, lost)?;
        self.brought.clear();
        let apartment = number_or_zero(context.running);
        self.refs.bounds();
        self.enter_reference(&entry.deed, context, apartment)?;
        self.touched.clear();
        take(
            &mut self.refs,
            &mut self.touched,
            self.brought.as_slice(),
            gained,
        );
        self.enter_end(&entry.deed, context, apartment);
        lose_all(&mut self.refs, &mut self.touched, lost);
        keep_made(&mut self.touched, self.refs.objects());
        Ok(())
    }
}

impl Ledger {
    /// How many objects at most an entry leaves without a holder: usize tells one more, too.
    pub fn most_left(&self, deed: &Deed, objects: &Objects, moves: &Moves) -> usize
        ensures value { result ≡ most_left self.now.calls objects.now.tables deed.now moves.now }
        ensures few { result + 1 < 2 ^ 64 }
    {
        let arguments = self.books.arguments_of(deed) as usize;
        most_noted(deed, objects, arguments, moves.losses())
    }

    /// Makes of the books what an entry makes of them, which takes these references from places and brings
    /// these. The only error is want of memory, and then nothing has changed but room.
    ///
    /// Where places are counted, and those that are lost and gained are counted off and on, the places after
    /// the entry are counted, and the books are those with the entry's rows, at the entry's end. Each object
    /// that had a holder before the entry and has none after it is written down, by number, and none that was
    /// not made.
    pub fn apply(
        &mut self,
        entry: &Entry,
        context: Context<'_>,
        moves: &Moves,
    ) -> Result<(), Memory>
        requires deed { FitsDeed entry.now.deed }
        requires fits { FitsBooks context.classes.now context.carried.now (number_or_zero context.running)
            (tally self.old.tables self.old.calls) entry.now.deed }
        requires known { (gained : List Move) → movings_of gained ≡ moves.now.gained
            → AllGiven context.classes.now self.old.tables entry.now.deed gained }
        requires gained { length moves.now.gained ≤ most_gained }
        ensures applies { OnOk result ((gained lost : List Move) → movings_of gained ≡ moves.now.gained
            → movings_of lost ≡ moves.now.lost
            → Applies (around context.entry.calls.now.tables context.entry.objects.now.tables
            context.entry.classes.now context.entry.carried.now
            (number_or_zero context.entry.running)) entry.now.deed gained lost
            (tally self.old.tables self.old.calls) (tally self.new.tables self.new.calls)) }
        ensures touched { OnOk result ((gained lost : List Move) → movings_of gained ≡ moves.now.gained
            → movings_of lost ≡ moves.now.lost
            → NotesLost (around context.entry.calls.now.tables context.entry.objects.now.tables
            context.entry.classes.now context.entry.carried.now
            (number_or_zero context.entry.running)) entry.now.deed gained lost
            (tally self.old.tables self.old.calls) (tally self.new.tables self.new.calls) self.new.touched) }
        ensures offers { OnOk result
            (OffersMore context.entry.classes.now (makes entry.now.deed) self.old.tables self.new.tables) }
        ensures issued { self.new.tables.issued ≤ self.old.tables.issued + most_given }
        ensures rise { OnOk result (Rise 0 self.new.touched (length self.new.tables.objects)) }
        ensures few { OnOk result (length self.new.touched
            ≤ most_left self.old.calls context.entry.objects.now.tables entry.now.deed moves.now) }
        ensures err_tables { OnErr result
            (self.new.tables ≡ record self.old.tables { spare = self.new.tables.spare }) }
        ensures err_calls { OnErr result (self.new.calls ≡ self.old.calls) }
        ensures err_touched { OnErr result (self.new.touched ≡ self.old.touched) }
    {
        self.books.change(entry, context, moves)
    }
}
