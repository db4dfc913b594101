//! The change of a core by an entry.

ghost use Rattle.std.specs.Prelude.{◌≡◌, ℕ, ◌+◌, ◌<◌, ◌≤◌, ◌^◌, All, IfOk, List, None, OnErr, OnOk, Option, true};
ghost use Rattle.std.specs.Prelude.{is_some, length, map, slice_index_or, vec_capacity};
ghost use Rattle.com_base.specs.declared.limits.TheConstants.{ENTRY_2_LIMIT};
ghost use Rattle.com_base.specs.declared.value.RefValue.{RefValue};
ghost use Rattle.com_calls.specs.Enclosures.{HasAnswer};
ghost use Rattle.com_calls.specs.Kept.{IsNamed};
ghost use Rattle.com_core.specs.Changes.{Becomes, Settles, Takes};
ghost use Rattle.com_core.specs.Making.{Booked, BookedBy, Brings, Changed};
ghost use Rattle.com_core.specs.Quiet.{is_still};
ghost use Rattle.com_core.specs.Seen.{IsAsBefore, IsWhole as IsWholeCore, TriesTo, TurnsTo};
ghost use Rattle.com_core.specs.Seen.{core_state, kept_of};
ghost use Rattle.com_core.specs.Shown.{held_shown, parts_shown};
ghost use Rattle.com_core.specs.Sound.{Few, Sound};
ghost use Rattle.com_core.specs.Stands.{seen_by};
ghost use Rattle.com_runtime.specs.declared.runtime.Standing.TheVariants as standing;
ghost use Rattle.com_runtime.specs.Standings.{can_step_in, standing_of};
ghost use Rattle.com_ledger.specs.Bodies.{entered_after};
ghost use Rattle.com_ledger.specs.Most.{Most};
ghost use Rattle.com_ledger.specs.Ties.{Ties};
ghost use Rattle.com_refs_rows.specs.Books.{books_held};
ghost use Rattle.com_refs_rows.specs.Entries.{AllGiven, around, most_left, tally};
ghost use Rattle.com_refs_rows.specs.Fits.{FitsBooks, most_gained};
ghost use Rattle.com_model.specs.declared.scenario.Scenario.{Scenario};
ghost use Rattle.com_model.specs.Calls.{issues, lane_of, object_of};
ghost use Rattle.com_model.specs.Clock.{ticked};
ghost use Rattle.com_model.specs.Ends.{limit};
ghost use Rattle.com_model.specs.Frames.{Actor as Acting};
ghost use Rattle.com_model.specs.Lists.{number_or_zero, where_true};
ghost use Rattle.com_model.specs.Tables.{lanes};
ghost use Rattle.com_reference_moves.specs.declared.moves.Move.{Move};
ghost use Rattle.com_reference_moves.specs.Steps.{IsWhole, moves_stepped, movings_of};
ghost use Rattle.com_reference_moves.specs.Tables.{ground_at};
ghost use Rattle.com_parts.specs.Begins.{IsBegun};
ghost use Rattle.com_parts.specs.Fits.{Fits, HasIssued, IsWriting, Sent, is_calls_alone, sent_by};
ghost use Rattle.com_refs.specs.Counts.{holders_of};
ghost use Rattle.com_scene.specs.Actors.{acting_of};
ghost use Rattle.com_scene.specs.Kept.{HasSlots};
ghost use Rattle.com_scene.specs.Ranges.{FitsDeed};
ghost use Rattle.com_servant.specs.Rows.{one_served, row};
ghost use Rattle.com_state.specs.After.{filtered_by};
ghost use Rattle.com_state.specs.Parts.{issue_at, named_at, openers_at};
ghost use Rattle.com_turns.specs.Turns.{IsNext, IsTurn, actor_later, kind_seen};
ghost use Rattle.com_view.specs.Seen.{filter_seen, home_seen, running_seen};

use crate::running::{Running, forget};
use crate::still::is_alone;
use com_base::{Memory, RefValue};
use com_body::Outcome;
use com_calls::Enclosed;
use com_ledger::{Context, DyingScan, count_bodies, other_by, released_by};
use com_model::{Deed, Entry, Scenario};
use com_parts::Change;
use com_reference_moves::EntrySetting;
use com_scene::{ActedEntry, Actor};
use com_servant::Servant;
use com_turns::{Bench, Turn, actor_after, is_filtered, next_turn};
use std::alloc::Global;
use std::mem;

// What an entry's change of the parts rests on, as it is before it: who acts in the lane after the entry, and
// whether the caller's lane of the call of a Verdict has a message filter.
#[derive(Debug, Clone, Copy)]
struct Basis {
    after: Actor,
    has_filter: bool,
}

// What an entry's change of the books rests on beside that: the home of the lane before the entry, and the
// apartment in which it runs.
#[derive(Debug, Clone, Copy)]
struct Seat {
    home: Option<u32>,
    running: Option<u32>,
}

// The clock after an entry.
fn clock_after(deed: &Deed, clock: u64) -> u64
    ensures { result ≡ ticked deed.now clock }
{
    match deed {
        Deed::Tick { clock: time } => *time,
        _ => clock,
    }
}

impl Running {
    // What an entry's change of the books rests on, beside what that of the parts does.
    fn seat(&self, scenario: &Scenario, lane: u32) -> Seat
        ensures home { result.home ≡ home_seen
            (seen_by scenario.now self.now.parts self.now.fallen.objects self.now.clock) lane }
        ensures running { result.running
            ≡ running_seen (seen_by scenario.now self.now.parts self.now.fallen.objects self.now.clock) lane }
    {
        let view = self.view(scenario);
        Seat {
            home: view.home(lane),
            running: view.running(lane),
        }
    }

    // Whether the caller's lane of the call that an entry names has a message filter, where it is a Verdict.
    fn has_filter(&self, scenario: &Scenario, deed: &Deed) -> bool
        ensures { result ≡ filtered_by (λ c. is_some (filter_seen
            (seen_by scenario.now self.now.parts self.now.fallen.objects self.now.clock)
            (lane_of (issue_at self.now.parts.calls.tables c)))) deed.now }
    {
        is_filtered(&self.view(scenario), deed)
    }

    // What an entry's change of the parts rests on.
    fn basis(&self, scenario: &Scenario, entry: &Entry) -> Basis
        ensures after { length (openers_at self.now.parts.lanes entry.now.lane) < 2 ^ 32
            → entry.now.lane < length self.now.parts.lanes.openers
            → acting_of result.after ≡ actor_later
            (seen_by scenario.now self.now.parts self.now.fallen.objects self.now.clock)
            entry.now.lane entry.now.deed }
        ensures has_filter { result.has_filter ≡ filtered_by (λ c. is_some (filter_seen
            (seen_by scenario.now self.now.parts self.now.fallen.objects self.now.clock)
            (lane_of (issue_at self.now.parts.calls.tables c)))) entry.now.deed }
    {
        let view = self.view(scenario);
        Basis {
            after: actor_after(&view, entry.lane, &entry.deed),
            has_filter: is_filtered(&view, &entry.deed),
        }
    }

    // Room for the running bodies and the dying objects after an entry, whose moves are filled. The only
    // error is want of memory.
    fn make_room(&mut self, entry: &Entry) -> Result<(), Memory>
        ensures body { OnOk result (0 < self.new.entered.spare) }
        ensures dying { OnOk result (most_left self.old.ledger.calls self.old.parts.objects entry.now.deed
            self.old.moves + 1 ≤ self.new.fallen.spare) }
        ensures fresh { OnOk result (most_left self.old.ledger.calls self.old.parts.objects entry.now.deed
            self.old.moves + 1 ≤ vec_capacity self.new.fresh) }
        ensures entered { self.new.entered.counts ≡ self.old.entered.counts }
        ensures fallen { self.new.fallen.objects ≡ self.old.fallen.objects }
        ensures parts { self.new.parts ≡ self.old.parts }
        ensures ledger { self.new.ledger ≡ self.old.ledger }
        ensures moves { self.new.moves ≡ self.old.moves }
        ensures clock { self.new.clock ≡ self.old.clock }
    {
        let most = self
            .ledger
            .most_left(&entry.deed, self.parts.objects(), &self.moves);
        let more = most + 1;
        self.entered.reserve()?;
        self.fallen.reserve(more)?;
        self.fresh.clear();
        self.fresh.reserve(more)
    }

    // What the entry takes from places and brings to them, and room for the running bodies and the dying
    // objects after it. The only error is want of memory.
    #[tactic(auto, using(crate::proofs::Whole::bodies_whole, crate::proofs::Whole::frame_whole))]
    fn prepare(
        &mut self,
        home: Option<u32>,
        after: Actor,
        acting: Actor,
        outcome: &Option<Outcome>,
        entry: &Entry,
    ) -> Result<(), Memory>
        requires sound { Sound self.old.parts self.old.entered.counts }
        requires deed { FitsDeed entry.now.deed }
        requires whole { IsWhole outcome.now }
        ensures moves { OnOk result (self.new.moves ≡ moves_stepped
            (ground_at home self.old.parts.objects self.old.parts.calls.tables) self.old.parts.scene
            (acting_of acting) outcome.now (acting_of after) entry.now) }
        ensures body { OnOk result (0 < self.new.entered.spare) }
        ensures dying { OnOk result (most_left self.old.ledger.calls self.old.parts.objects entry.now.deed
            self.new.moves + 1 ≤ self.new.fallen.spare) }
        ensures fresh { OnOk result (most_left self.old.ledger.calls self.old.parts.objects entry.now.deed
            self.new.moves + 1 ≤ vec_capacity self.new.fresh) }
        ensures entered { self.new.entered.counts ≡ self.old.entered.counts }
        ensures fallen { self.new.fallen.objects ≡ self.old.fallen.objects }
        ensures parts { self.new.parts ≡ self.old.parts }
        ensures ledger { self.new.ledger ≡ self.old.ledger }
        ensures clock { self.new.clock ≡ self.old.clock }
    {
        let setting = EntrySetting {
            home,
            objects: self.parts.objects(),
            calls: self.parts.calls(),
            scene: self.parts.scene(),
            acting,
            outcome,
            after,
        };
        self.moves.fill(&setting, entry)?;
        self.make_room(entry)
    }

    // The books after an entry that was prepared. The only error is want of memory, and then they are as
    // before but for room.
    #[tactic(auto, using(crate::proofs::Shown::held_alike))]
    fn book(
        &mut self,
        scenario: &Scenario,
        seat: Seat,
        carried: &[RefValue],
        entry: &Entry,
    ) -> Result<(), Memory>
        requires deed { FitsDeed entry.now.deed }
        requires fits { FitsBooks scenario.now.classes carried.now (number_or_zero seat.running)
            (tally self.old.ledger.tables self.old.ledger.calls) entry.now.deed }
        requires known { (gained : List Move) → movings_of gained ≡ self.old.moves.gained
            → AllGiven scenario.now.classes self.old.ledger.tables entry.now.deed gained }
        requires gained { length self.old.moves.gained ≤ most_gained }
        ensures booked { OnOk result (Booked (around self.old.parts.calls.tables self.old.parts.objects
            scenario.now.classes carried.now (number_or_zero seat.running)) entry.now.deed self.old.moves
            self.old.ledger self.new.ledger) }
        ensures few { OnOk result (length self.new.ledger.touched ≤ most_left self.old.ledger.calls
            self.old.parts.objects entry.now.deed self.old.moves) }
        ensures held { OnErr result (held_shown self.new.ledger ≡ held_shown self.old.ledger) }
        ensures parts { self.new.parts ≡ self.old.parts }
        ensures entered { self.new.entered ≡ self.old.entered }
        ensures fallen { self.new.fallen ≡ self.old.fallen }
        ensures fresh { self.new.fresh ≡ self.old.fresh }
        ensures clock { self.new.clock ≡ self.old.clock }
    {
        let context = Context {
            home: seat.home,
            running: seat.running,
            objects: self.parts.objects(),
            calls: self.parts.calls(),
            classes: &scenario.classes,
            carried,
        };
        self.ledger.apply(entry, context, &self.moves)?;
        self.ledger.tells();
        Ok(())
    }

    // Begins the change of the parts by an entry that they take: takes all memory that they want for it. The
    // only error is want of memory. Whatever is answered, the parts are as before but for room.
    #[tactic(auto, using(crate::proofs::Shown::parts_alike))]
    fn begin_parts(&mut self, change: &Change<'_>) -> Result<(), Memory>
        requires fits { Fits self.old.parts.lanes self.old.parts.objects self.old.parts.calls
            change.now.entry.lane change.now.entry.deed.now change.now.clock }
        requires target { named_at self.old.parts.objects
            (object_of (issues change.now.entry.lane change.now.entry.deed.now)) + 1 < 2 ^ 32 }
        requires room { self.old.parts.entries < ENTRY_2_LIMIT }
        ensures begun { OnOk result (IsBegun self.new.parts (acting_of change.now.entry.acting)
            (acting_of change.now.entry.after) change.now.entry.lane change.now.entry.deed.now change.now.clock) }
        ensures same { parts_shown self.new.parts ≡ parts_shown self.old.parts }
        ensures entered { self.new.entered ≡ self.old.entered }
        ensures ledger { self.new.ledger ≡ self.old.ledger }
        ensures fallen { self.new.fallen ≡ self.old.fallen }
        ensures moves { self.new.moves ≡ self.old.moves }
        ensures fresh { self.new.fresh ≡ self.old.fresh }
        ensures clock { self.new.clock ≡ self.old.clock }
    {
        self.parts.begin(change)
    }

    // The parts after an entry by which their change was begun. It takes no memory.
    #[tactic(auto, using(crate::proofs::Whole::frame_fits))]
    fn finish_parts(
        &mut self,
        change: &Change<'_>,
        outcome: &mut Option<Outcome>,
        enclosed: &mut Enclosed,
    )
        requires bodies { All HasSlots self.old.parts.scene.bodies }
        requires deed { FitsDeed change.now.entry.deed.now }
        requires whole { IsWhole outcome.old }
        requires writes { IsWriting outcome.old }
        requires sent { HasIssued change.now.entry.deed.now (sent_by enclosed.old) }
        requires answer { HasAnswer change.now.entry.deed.now enclosed.old }
        requires begun { IsBegun self.old.parts (acting_of change.now.entry.acting)
            (acting_of change.now.entry.after) change.now.entry.lane change.now.entry.deed.now change.now.clock }
        ensures becomes { Becomes self.old.parts self.new.parts
            (record { lane = change.now.entry.lane; deed = change.now.entry.deed.now })
            (acting_of change.now.entry.acting) outcome.old (acting_of change.now.entry.after)
            change.now.has_filter (sent_by enclosed.old) change.now.clock }
        ensures bodies { All HasSlots self.new.parts.scene.bodies }
        ensures entered { self.new.entered ≡ self.old.entered }
        ensures ledger { self.new.ledger ≡ self.old.ledger }
        ensures fallen { self.new.fallen ≡ self.old.fallen }
        ensures fresh { self.new.fresh ≡ self.old.fresh }
        ensures clock { self.new.clock ≡ self.old.clock }
    {
        self.parts.finish(change, outcome, enclosed);
    }

    // The running bodies and the dying objects after the entry, whose parts and books are those after it.
    // There is room for them.
    fn settle(&mut self, deed: &Deed, acting: Actor)
        requires few { (o : ℕ) → slice_index_or self.old.entered.counts o 0 + 1 < 2 ^ 32 }
        requires body { 0 < self.old.entered.spare }
        requires dying { length self.old.ledger.touched + 1 ≤ self.old.fallen.spare }
        requires fresh { length self.old.ledger.touched + 1 ≤ vec_capacity self.old.fresh }
        ensures runs { (n : ℕ) → Most n self.old.entered.counts → Most (n + 1) self.new.entered.counts }
        ensures entered { self.new.entered.counts
            ≡ entered_after deed.now (acting_of acting) self.old.entered.counts }
        ensures fallen { Settles self.new.parts.objects
            (holders_of self.new.ledger.tables) self.new.entered.counts
            self.old.fallen.objects self.new.ledger.touched deed.now (acting_of acting)
            self.new.fallen.objects }
        ensures parts { self.new.parts ≡ self.old.parts }
        ensures ledger { self.new.ledger ≡ self.old.ledger }
        ensures clock { self.new.clock ≡ self.old.clock }
    {
        count_bodies(&mut self.entered, deed, acting);
        let scan = DyingScan {
            objects: self.parts.objects(),
            ledger: &self.ledger,
            entered: &self.entered,
            fallen: &self.fallen,
        };
        let other = other_by(deed, acting, self.parts.objects().len());
        scan.find_dying(&mut self.fresh, other);
        self.fallen.settle(released_by(deed), self.fresh.as_slice());
    }

    // Makes of all what an entry makes of it that moves no reference, has no row in the books, and begins and
    // ends no body: no object begins to die. The only error is want of memory, and then all is as before but
    // for room, and so is the step.
    #[tactic(auto, using(crate::proofs::Shown::as_moved, crate::proofs::Shown::held_alike))]
    fn change_still(
        &mut self,
        basis: Basis,
        acting: Actor,
        outcome: &mut Option<Outcome>,
        enclosed: &mut Enclosed,
        entry: &Entry,
    ) -> Result<(), Memory>
        requires still { is_still self.old.parts self.old.ledger outcome.old entry.now.deed ≡ true }
        requires sound { Sound self.old.parts self.old.entered.counts }
        requires room { self.old.parts.entries < ENTRY_2_LIMIT }
        requires takes { Takes self.old.parts self.old.clock outcome.old (sent_by enclosed.old) entry.now }
        requires answer { HasAnswer entry.now.deed enclosed.old }
        requires whole { IsWhole outcome.old }
        ensures becomes { OnOk result (Becomes self.old.parts self.new.parts entry.now
            (acting_of acting) outcome.old
            (acting_of basis.after) basis.has_filter (sent_by enclosed.old) self.old.clock) }
        ensures bodies { OnOk result (All HasSlots self.new.parts.scene.bodies) }
        ensures runs { OnOk result ((n : ℕ) → Most n self.old.entered.counts
            → Most (n + 1) self.new.entered.counts) }
        ensures entered { OnOk result (self.new.entered.counts
            ≡ entered_after entry.now.deed (acting_of acting) self.old.entered.counts) }
        ensures fallen { OnOk result (Settles self.new.parts.objects
            (holders_of self.new.ledger.tables) self.new.entered.counts
            self.old.fallen.objects self.new.ledger.touched entry.now.deed (acting_of acting)
            self.new.fallen.objects) }
        ensures clock { OnOk result (self.new.clock ≡ ticked entry.now.deed self.old.clock) }
        ensures booked { OnOk result ((s : Scenario) (home running : Option ℕ) (carried : List RefValue)
            → BookedBy s self.old.parts home running carried entry.now (acting_of acting) outcome.old
            (acting_of basis.after) self.old.ledger self.new.ledger) }
        ensures err { OnErr result (IsAsBefore self.old self.new) }
        ensures step { OnErr result (outcome.new ≡ outcome.old) }
    {
        let change = Change {
            entry: ActedEntry {
                lane: entry.lane,
                deed: &entry.deed,
                acting,
                after: basis.after,
            },
            has_filter: basis.has_filter,
            clock: self.clock,
        };
        self.begin_parts(&change)?;
        self.ledger.pass(&entry.deed)?;
        self.finish_parts(&change, outcome, enclosed);
        self.clock = clock_after(&entry.deed, self.clock);
        Ok(())
    }

    // Makes of all what an entry makes of it that changes nothing but the calls, and that nobody's step makes: no
    // reference moves, no row of the books changes, no body begins or ends, and no object begins to die. The only
    // error is want of memory, and then nothing has changed.
    #[tactic(auto, using(crate::proofs::Shown::as_moved, crate::proofs::Shown::held_alike))]
    fn change_alone(&mut self, has_filter: bool, entry: &Entry) -> Result<(), Memory>
        requires alone { is_calls_alone entry.now.deed ≡ true }
        requires sound { Sound self.old.parts self.old.entered.counts }
        requires room { self.old.parts.entries < ENTRY_2_LIMIT }
        requires fits { Fits self.old.parts.lanes self.old.parts.objects self.old.parts.calls
            entry.now.lane entry.now.deed self.old.clock }
        ensures becomes { OnOk result ((acting after : Acting) (x : Option Sent)
            → Becomes self.old.parts self.new.parts entry.now acting None after has_filter x self.old.clock) }
        ensures bodies { OnOk result (All HasSlots self.new.parts.scene.bodies) }
        ensures runs { OnOk result ((n : ℕ) → Most n self.old.entered.counts
            → Most (n + 1) self.new.entered.counts) }
        ensures entered { OnOk result ((acting : Acting) → self.new.entered.counts
            ≡ entered_after entry.now.deed acting self.old.entered.counts) }
        ensures fallen { OnOk result ((acting : Acting) → Settles self.new.parts.objects
            (holders_of self.new.ledger.tables) self.new.entered.counts
            self.old.fallen.objects self.new.ledger.touched entry.now.deed acting self.new.fallen.objects) }
        ensures clock { OnOk result (self.new.clock ≡ ticked entry.now.deed self.old.clock) }
        ensures booked { OnOk result ((s : Scenario) (home running : Option ℕ) (carried : List RefValue)
            (acting after : Acting) → BookedBy s self.old.parts home running carried entry.now acting None
            after self.old.ledger self.new.ledger) }
        ensures err { OnErr result (IsAsBefore self.old self.new) }
    {
        self.ledger.pass(&entry.deed)?;
        self.parts
            .apply_alone(entry.lane, &entry.deed, has_filter, self.clock);
        self.clock = clock_after(&entry.deed, self.clock);
        Ok(())
    }

    // Makes of all what an entry makes of it, with what it rests on. The only error is want of memory.
    // Whatever may want it comes first: the moves, room, the parts' share, and the books, which change whole
    // or not at all. So where one wants it, all is as before but for room, and so is the step. What comes
    // behind the books cannot fail.
    #[tactic(auto, using(crate::proofs::Shown::as_moved, crate::proofs::Shown::held_alike))]
    fn change(
        &mut self,
        scenario: &Scenario,
        basis: Basis,
        seat: Seat,
        acting: Actor,
        outcome: &mut Option<Outcome>,
        enclosed: &mut Enclosed,
        carried: &[RefValue],
        entry: &Entry,
    ) -> Result<(), Memory>
        requires sound { Sound self.old.parts self.old.entered.counts }
        requires few { Few self.old.parts }
        requires room { self.old.parts.entries < ENTRY_2_LIMIT }
        requires takes { Takes self.old.parts self.old.clock outcome.old (sent_by enclosed.old) entry.now }
        requires answer { HasAnswer entry.now.deed enclosed.old }
        requires fits { FitsBooks scenario.now.classes carried.now (number_or_zero seat.running)
            (tally self.old.ledger.tables self.old.ledger.calls) entry.now.deed }
        requires brings { Brings scenario.now self.old.parts self.old.ledger entry.now
            (acting_of acting) outcome.old }
        requires whole { IsWhole outcome.old }
        ensures becomes { OnOk result (Becomes self.old.parts self.new.parts entry.now
            (acting_of acting) outcome.old
            (acting_of basis.after) basis.has_filter (sent_by enclosed.old) self.old.clock) }
        ensures bodies { OnOk result (All HasSlots self.new.parts.scene.bodies) }
        ensures runs { OnOk result ((n : ℕ) → Most n self.old.entered.counts
            → Most (n + 1) self.new.entered.counts) }
        ensures entered { OnOk result (self.new.entered.counts
            ≡ entered_after entry.now.deed (acting_of acting) self.old.entered.counts) }
        ensures fallen { OnOk result (Settles self.new.parts.objects
            (holders_of self.new.ledger.tables) self.new.entered.counts
            self.old.fallen.objects self.new.ledger.touched entry.now.deed (acting_of acting)
            self.new.fallen.objects) }
        ensures clock { OnOk result (self.new.clock ≡ ticked entry.now.deed self.old.clock) }
        ensures booked { OnOk result (BookedBy scenario.now self.old.parts seat.home seat.running
            carried.now entry.now (acting_of acting) outcome.old (acting_of basis.after) self.old.ledger
            self.new.ledger) }
        ensures err { OnErr result (IsAsBefore self.old self.new) }
        ensures step { OnErr result (outcome.new ≡ outcome.old) }
    {
        let change = Change {
            entry: ActedEntry {
                lane: entry.lane,
                deed: &entry.deed,
                acting,
                after: basis.after,
            },
            has_filter: basis.has_filter,
            clock: self.clock,
        };
        self.prepare(seat.home, basis.after, acting, outcome, entry)?;
        self.begin_parts(&change)?;
        self.book(scenario, seat, carried, entry)?;
        self.finish_parts(&change, outcome, enclosed);
        self.settle(&entry.deed, acting);
        self.clock = clock_after(&entry.deed, self.clock);
        Ok(())
    }

    // Makes the entry of a deed, with what the deed rests on.
    pub(crate) fn make(
        &mut self,
        scenario: &Scenario,
        acting: Actor,
        outcome: &mut Option<Outcome>,
        enclosed: &mut Enclosed,
        carried: &[RefValue],
        entry: &Entry,
    ) -> Result<(), Memory>
        requires sound { Sound self.old.parts self.old.entered.counts }
        requires few { Few self.old.parts }
        requires whole { IsWhole outcome.old }
        requires room { self.old.parts.entries < ENTRY_2_LIMIT }
        requires takes { Takes self.old.parts self.old.clock outcome.old (sent_by enclosed.old) entry.now }
        requires answer { HasAnswer entry.now.deed enclosed.old }
        requires fits { FitsBooks scenario.now.classes carried.now (number_or_zero (running_seen
            (seen_by scenario.now self.old.parts self.old.fallen.objects self.old.clock) entry.now.lane))
            (tally self.old.ledger.tables self.old.ledger.calls) entry.now.deed }
        requires brings { Brings scenario.now self.old.parts self.old.ledger entry.now
            (acting_of acting) outcome.old }
        ensures few { Few self.new.parts }
        ensures sound { Sound self.new.parts self.new.entered.counts }
        ensures entries { OnOk result (self.new.parts.entries ≡ self.old.parts.entries + 1) }
        ensures clock { OnOk result (self.new.clock ≡ ticked entry.now.deed self.old.clock) }
        ensures changed { OnOk result
            (Changed scenario.now self.old.parts self.new.parts self.old.ledger self.new.ledger
            self.old.entered.counts self.new.entered.counts self.old.fallen.objects self.new.fallen.objects
            self.old.clock entry.now (acting_of acting)
            outcome.old carried.now (sent_by enclosed.old)) }
        ensures err { OnErr result (IsAsBefore self.old self.new) }
        ensures step { OnErr result (outcome.new ≡ outcome.old) }
    {
        if is_alone(outcome, &entry.deed) {
            let has_filter = self.has_filter(scenario, &entry.deed);
            return self.change_alone(has_filter, entry);
        }
        let basis = self.basis(scenario, entry);
        if self.is_still(outcome, &entry.deed) {
            return self.change_still(basis, acting, outcome, enclosed, entry);
        }
        let seat = self.seat(scenario, entry.lane);
        self.change(
            scenario, basis, seat, acting, outcome, enclosed, carried, entry,
        )
    }

    // Makes the entry of a turn of a lane, in the place of the entry before it.
    #[tactic(auto, using(crate::proofs::Turned::next_made, crate::proofs::Runs::below_million))]
    pub(crate) fn make_turn(
        &mut self,
        scenario: &Scenario,
        lane: u32,
        turn: &mut Turn,
        outcome: &mut Option<Outcome>,
        entry: &mut Entry,
    ) -> Result<(), Memory>
        requires sound { Sound self.old.parts self.old.entered.counts }
        requires few { Few self.old.parts }
        requires core { IsWholeCore (kept_of scenario.now self.old) }
        requires ties { Ties scenario.now (core_state (kept_of scenario.now self.old)) self.old.ledger }
        requires above { 1 ≤ lane }
        requires below { lane ≤ lanes scenario.now }
        requires whole { IsWhole outcome.old }
        requires named { IsNamed self.old.parts.objects self.old.parts.calls }
        requires room { self.old.parts.entries < limit scenario.now }
        requires turn { IsTurn (seen_by scenario.now self.old.parts self.old.fallen.objects self.old.clock)
            (books_held self.old.ledger) lane outcome.old turn.old }
        ensures few { Few self.new.parts }
        ensures sound { Sound self.new.parts self.new.entered.counts }
        ensures next { OnOk result (TurnsTo scenario.now lane self.old self.new entry.new) }
        ensures err { OnErr result (IsAsBefore self.old self.new) }
        ensures step { OnErr result (outcome.new ≡ outcome.old) }
    {
        entry.lane = lane;
        mem::swap(&mut entry.deed, &mut turn.doing.deed);
        self.make(
            scenario,
            turn.acting,
            outcome,
            &mut turn.doing.enclosed,
            turn.doing.carried.as_slice(),
            entry,
        )
    }

    // Makes the turn of a lane, in the place of another, where the lane can step; whether it can.
    #[tactic(auto, using(crate::proofs::Whole::bodies_whole))]
    fn turn_of(
        &self,
        scenario: &Scenario,
        alloc: Global,
        lane: u32,
        servants: &mut Vec<Box<dyn Servant + Send>>,
        bench: &mut Bench,
        turn: &mut Turn,
    ) -> Result<bool, Memory>
        requires none { bench.old.step ≡ None }
        requires sound { Sound self.now.parts self.now.entered.counts }
        requires core { IsWholeCore (kept_of scenario.now self.now) }
        requires room { self.now.parts.entries < limit scenario.now }
        requires row { map kind_of servants.old.items ≡ row }
        ensures whole { IsWhole bench.new.step }
        ensures named { IsNamed self.now.parts.objects self.now.parts.calls }
        ensures turn { IfOk result (λ made. IsNext
            (seen_by scenario.now self.now.parts self.now.fallen.objects self.now.clock)
            (books_held self.now.ledger) lane bench.new.step (where_true made turn.new)) }
        ensures can { IfOk result (λ made. made
            ≡ can_step_in scenario.now (core_state (kept_of scenario.now self.now)) lane) }
        ensures row { map kind_of servants.new.items ≡ row }
        ensures served { OnOk result (map stepped servants.new.items
            ≡ one_served (kind_seen (seen_by scenario.now
            self.now.parts self.now.fallen.objects self.now.clock) lane) (map stepped servants.old.items)) }
    {
        let view = self.view(scenario);
        next_turn(&view, &self.ledger, alloc, lane, servants, bench, turn)
    }

    // Tries a lane by its turn, which is that of a body or of a script. It has a function of its own, since a turn is
    // wide: an entry that the rules give would make room for it.
    #[inline(never)]
    #[tactic(auto, using(crate::proofs::Shown::as_before))]
    fn step_by_turn(
        &mut self,
        scenario: &Scenario,
        alloc: Global,
        lane: u32,
        servants: &mut Vec<Box<dyn Servant + Send>>,
        bench: &mut Bench,
        entry: &mut Entry,
    ) -> Result<bool, Memory>
        requires none { bench.old.step ≡ None }
        requires sound { Sound self.old.parts self.old.entered.counts }
        requires few { Few self.old.parts }
        requires core { IsWholeCore (kept_of scenario.now self.old) }
        requires ties { Ties scenario.now (core_state (kept_of scenario.now self.old)) self.old.ledger }
        requires above { 1 ≤ lane }
        requires below { lane ≤ lanes scenario.now }
        requires room { self.old.parts.entries < limit scenario.now }
        requires row { map kind_of servants.old.items ≡ row }
        ensures few { Few self.new.parts }
        ensures sound { Sound self.new.parts self.new.entered.counts }
        ensures can { IfOk result (λ can. can
            ≡ can_step_in scenario.now (core_state (kept_of scenario.now self.old)) lane) }
        ensures next { IfOk result (λ can. TriesTo scenario.now lane can self.old self.new entry.new) }
        ensures err { OnErr result (IsAsBefore self.old self.new) }
        ensures row { map kind_of servants.new.items ≡ row }
        ensures served { OnOk result (map stepped servants.new.items
            ≡ one_served (kind_seen (seen_by scenario.now
            self.old.parts self.old.fallen.objects self.old.clock) lane) (map stepped servants.old.items)) }
    {
        let mut turn = Turn::nothing(alloc);
        let made = self.turn_of(scenario, alloc, lane, servants, bench, &mut turn)?;
        if !made {
            return Ok(false);
        }
        self.make_turn(scenario, lane, &mut turn, &mut bench.step, entry)?;
        Ok(true)
    }

    /// Tries a lane: makes its next entry, in the place of the entry before it, where the lane can step; else
    /// nothing has changed. Whether it did. The step of the entry before, which lies on the bench, makes room for
    /// that of this one. The only error is want of memory.
    #[tactic(auto, using(crate::proofs::Shown::as_before))]
    pub fn step(
        &mut self,
        scenario: &Scenario,
        alloc: Global,
        lane: u32,
        servants: &mut Vec<Box<dyn Servant + Send>>,
        bench: &mut Bench,
        entry: &mut Entry,
    ) -> Result<bool, Memory>
        requires sound { Sound self.old.parts self.old.entered.counts }
        requires few { Few self.old.parts }
        requires core { IsWholeCore (kept_of scenario.now self.old) }
        requires ties { Ties scenario.now (core_state (kept_of scenario.now self.old)) self.old.ledger }
        requires above { 1 ≤ lane }
        requires below { lane ≤ lanes scenario.now }
        requires room { self.old.parts.entries < limit scenario.now }
        requires row { map kind_of servants.old.items ≡ row }
        ensures few { Few self.new.parts }
        ensures sound { Sound self.new.parts self.new.entered.counts }
        ensures can { IfOk result (λ can. can
            ≡ can_step_in scenario.now (core_state (kept_of scenario.now self.old)) lane) }
        ensures next { IfOk result (λ can. TriesTo scenario.now lane can self.old self.new entry.new) }
        ensures err { OnErr result (IsAsBefore self.old self.new) }
        ensures row { map kind_of servants.new.items ≡ row }
        ensures served { OnOk result (map stepped servants.new.items
            ≡ one_served (kind_seen (seen_by scenario.now
            self.old.parts self.old.fallen.objects self.old.clock) lane) (map stepped servants.old.items)) }
    {
        forget(&mut bench.step);
        if self.is_ruled(scenario, lane) {
            return self.step_by_rule(scenario, alloc, lane, &mut bench.step, entry);
        }
        self.step_by_turn(scenario, alloc, lane, servants, bench, entry)
    }

    /// Makes the clock's entry, where the clock goes on, in the place of the entry before it. The only error is
    /// want of memory.
    #[tactic(auto, using(crate::proofs::Turned::tick_made, crate::proofs::Runs::below_million, crate::proofs::Shown::as_before))]
    pub fn tick(&mut self, scenario: &Scenario, entry: &mut Entry) -> Result<(), Memory>
        requires sound { Sound self.old.parts self.old.entered.counts }
        requires few { Few self.old.parts }
        requires core { IsWholeCore (kept_of scenario.now self.old) }
        requires ties { Ties scenario.now (core_state (kept_of scenario.now self.old)) self.old.ledger }
        requires due { standing_of scenario.now (core_state (kept_of scenario.now self.old)) ≡ standing.Ticks }
        requires room { self.old.parts.entries < limit scenario.now }
        ensures few { Few self.new.parts }
        ensures sound { Sound self.new.parts self.new.entered.counts }
        ensures next { OnOk result (TurnsTo scenario.now 0 self.old self.new entry.new) }
        ensures err { OnErr result (IsAsBefore self.old self.new) }
    {
        let Some(clock) = self.parts.calls().next_time(self.clock) else {
            unreachable!()
        };
        *entry = Entry {
            lane: 0,
            deed: Deed::Tick { clock },
        };
        let mut step = None;
        self.make(
            scenario,
            Actor::Nobody,
            &mut step,
            &mut Enclosed::Nothing,
            &[],
            entry,
        )
    }
}
