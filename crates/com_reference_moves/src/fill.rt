//! The moves of an entry by its kind: what the action writes, what the entry brings and takes beside that,
//! and what the end of an STA takes. All is read before anything is changed.
ghost use Rattle.std.specs.Prelude.{◌≡◌, length, ◌++◌, ◌&&◌, not, false, [], ◌==◌, OnOk, OnErr};
ghost use Rattle.std.specs.Prelude.{Some, None, if◌then◌else◌};
ghost use Rattle.com_body.specs.Frames.{references};
ghost use Rattle.com_model.specs.Apartments.{ends_sta};
ghost use Rattle.com_model.specs.Calls.{is_direct, route_of};
ghost use Rattle.com_model.specs.Frames.{Body, Script, value_reference};
ghost use Rattle.com_model.specs.Lists.{from_one, one_to};
ghost use Rattle.com_model.specs.Places.{left_value};
ghost use Rattle.com_laws_places.specs.Moves.{no_moves, together, all_moved, entered_where, slots_where};
ghost use Rattle.com_scene.specs.Actors.{acting_of};
ghost use Rattle.com_scene.specs.Ranges.{FitsDeed};
ghost use Rattle.com_state.specs.Parts.{admission_at, issue_at, named_at};
ghost use Rattle.com_state.specs.SceneParts.{destination_at};
ghost use Rattle.com_reference_moves.specs.Steps.{acted_stepped, arrived_stepped, ended_stepped, given_moves};
ghost use Rattle.com_reference_moves.specs.Steps.{result_at, links_of_step};
ghost use Rattle.com_reference_moves.specs.Steps.{step_moves, slots_stepped, links_stepped, moves_stepped, FrameWhole};
ghost use Rattle.com_reference_moves.specs.Steps.{IsWhole, BodiesWhole};
ghost use Rattle.com_reference_moves.specs.Tables.{ground_at};

use crate::moves::Moves;
use crate::setting::EntrySetting;
use crate::steps::{links_after, slots_after, slots_of};
use crate::written::{Written, written_by};
use com_base::{HOST_STA, Memory, RefValue, Value};
use com_body::{Destination, Outcome, Place};
use com_calls::Calls;
use com_model::{Deed, Entry, Route};
use com_scene::Actor;

// The apartment that a call was entered in.
fn entered_where(calls: &Calls, call: u32) -> Option<u32>
    ensures { result ≡ entered_where (admission_at calls.now.tables call) }
{
    match calls.admission(call) {
        None => None,
        Some(admission) => Some(admission.apartment),
    }
}

// The apartment of an actor's slots.
fn slots_where(setting: &EntrySetting<'_>, who: Actor) -> Option<u32>
    ensures { result ≡ slots_where (ground_at setting.now.home setting.now.objects setting.now.calls)
        (acting_of who) }
{
    match who {
        Actor::Body { call, .. } => entered_where(setting.calls, call),
        Actor::Script { .. } => setting.home,
        Actor::Nobody => None,
    }
}

// Whether the result of a call is at a place from its Leave to its Back: that of a direct call that is not
// back.
fn keeps_result(calls: &Calls, call: u32) -> bool
    ensures { result ≡ (is_direct (route_of (issue_at calls.now.tables call)) && not
        (from_one calls.now.tables.returned call false)) }
{
    let Some(issue) = calls.issue(call) else {
        return false;
    };
    match issue.route {
        Route::Direct => !calls.is_returned(call),
        _ => false,
    }
}

// The reference in a value, and null where it holds none.
fn reference_in(value: &Option<Value>) -> Option<RefValue>
    ensures { result ≡ value_reference value.now }
{
    match value {
        Some(Value::Ref(held)) => *held,
        _ => None,
    }
}

// The STA that a last Uninit ends.
fn ended_sta(deed: &Deed) -> Option<u32>
    ensures { result ≡ ends_sta deed.now }
{
    let Deed::Uninit {
        home: Some(apartment),
        count: 0,
    } = deed
    else {
        return None;
    };
    if *apartment < HOST_STA {
        return None;
    }
    Some(*apartment)
}

#[tactic(auto, using(crate::proofs::Lists::append_none))]
impl Moves {
    // What a step's action writes at a place.
    fn write(
        &mut self,
        setting: &EntrySetting<'_>,
        outcome: &Outcome,
        written: Option<Written>,
    ) -> Result<(), Memory>
        requires { IsWhole (Some outcome.now) }
        ensures { OnOk result (self.new
            ≡ together self.old (step_moves (ground_at setting.now.home setting.now.objects setting.now.calls)
            setting.now.acting outcome.now written)) }
    {
        let Some(Written { place, held }) = written else {
            return Ok(());
        };
        match place {
            Place::Slot(number) => {
                let apartment = slots_where(setting, setting.acting);
                self.exchange(apartment, &slots_of(&outcome.frame), number, held)
            }
            Place::Link(number) => match setting.acting {
                Actor::Body { object, .. } => {
                    let owner = setting.objects.owner(object);
                    self.exchange(Some(owner), &outcome.cells.links, number, held)
                }
                _ => Ok(()),
            },
        }
    }

    // What the action of whoever acts takes and brings.
    fn act(&mut self, setting: &EntrySetting<'_>, deed: &Deed) -> Result<(), Memory>
        requires deed { FitsDeed deed.now }
        requires outcome { IsWhole setting.now.outcome }
        ensures { OnOk result (self.new
            ≡ together self.old (acted_stepped (ground_at setting.now.home setting.now.objects
            setting.now.calls) setting.now.acting setting.now.outcome deed.now)) }
    {
        let Some(outcome) = setting.outcome else {
            return Ok(());
        };
        self.write(setting, outcome, written_by(&outcome.action, deed))
    }

    // A result that comes back to a destination.
    fn give(
        &mut self,
        apartment: Option<u32>,
        slots: &[Option<RefValue>],
        to: Destination,
        value: &Option<Value>,
    ) -> Result<(), Memory>
        ensures { OnOk result (self.new ≡ together self.old (given_moves apartment slots.now to value.now)) }
    {
        match to {
            Destination::Slot(number) => self.exchange(
                apartment,
                slots,
                number,
                reference_in(value),
            ),
            _ => Ok(()),
        }
    }

    // A result comes to its place where its call leaves.
    fn gain_result(&mut self, calls: &Calls, call: u32, value: &Option<Value>) -> Result<(), Memory>
        ensures { OnOk result (self.new
            ≡ record self.old { gained = self.old.gained ++ result_at calls.now.tables call value.now }) }
    {
        if !keeps_result(calls, call) {
            return Ok(());
        }
        self.gain(entered_where(calls, call), reference_in(value))
    }

    // A result leaves its place where its call comes back.
    fn lose_result(&mut self, calls: &Calls, call: u32) -> Result<(), Memory>
        ensures { OnOk result (self.new
            ≡ record self.old {
              lost = self.old.lost ++ result_at calls.now.tables call
                  (left_value (from_one calls.now.tables.leavings call None));
            }) }
    {
        if !keeps_result(calls, call) {
            return Ok(());
        }
        self.lose(entered_where(calls, call), calls.left_reference(call))
    }

    // A body leaves: all its slots, and its result.
    fn leave(
        &mut self,
        setting: &EntrySetting<'_>,
        deed: &Deed,
        call: u32,
        value: &Option<Value>,
    ) -> Result<(), Memory>
        requires deed { FitsDeed deed.now }
        requires outcome { IsWhole setting.now.outcome }
        requires bodies { BodiesWhole setting.now.scene }
        ensures { OnOk result (self.new ≡ together self.old (record {
          lost = all_moved (entered_where (admission_at setting.now.calls call))
              (slots_stepped setting.now.scene setting.now.acting setting.now.outcome deed.now (Body call 0));
          gained = result_at setting.now.calls call value.now;
        })) }
    {
        let slots = slots_after(
            setting.scene,
            setting.acting,
            setting.outcome,
            deed,
            Actor::Body { call, object: 0 },
        );
        self.lose_all(entered_where(setting.calls, call), &slots)?;
        self.gain_result(setting.calls, call, value)
    }

    // The result of a call leaves its place, and comes to the destination in an apartment.
    #[tactic(auto, using(crate::proofs::Lists::lost_then))]
    fn give_back(
        &mut self,
        setting: &EntrySetting<'_>,
        apartment: Option<u32>,
        deed: &Deed,
        call: u32,
        value: &Option<Value>,
    ) -> Result<(), Memory>
        requires deed { FitsDeed deed.now }
        requires outcome { IsWhole setting.now.outcome }
        requires after { FrameWhole setting.now.scene setting.now.after }
        ensures { OnOk result (self.new ≡ together self.old (together
            (record {
              lost = result_at setting.now.calls call
                  (left_value (from_one setting.now.calls.leavings call None));
              gained = [];
            })
            (given_moves apartment
            (slots_stepped setting.now.scene setting.now.acting setting.now.outcome deed.now
            setting.now.after)
            (destination_at setting.now.scene call) value.now))) }
    {
        self.lose_result(setting.calls, call)?;
        let slots = slots_after(
            setting.scene,
            setting.acting,
            setting.outcome,
            deed,
            setting.after,
        );
        self.give(apartment, &slots, setting.scene.destination(call), value)
    }

    // A call comes back to whoever acts in the lane after the entry.
    fn come_back(
        &mut self,
        setting: &EntrySetting<'_>,
        deed: &Deed,
        call: u32,
        value: &Option<Value>,
    ) -> Result<(), Memory>
        requires deed { FitsDeed deed.now }
        requires outcome { IsWhole setting.now.outcome }
        requires after { FrameWhole setting.now.scene setting.now.after }
        ensures { OnOk result (self.new ≡ together self.old (together
            (record {
              lost = result_at setting.now.calls call
                  (left_value (from_one setting.now.calls.leavings call None));
              gained = [];
            })
            (given_moves (slots_where (ground_at setting.now.home setting.now.objects setting.now.calls)
            setting.now.after)
            (slots_stepped setting.now.scene setting.now.acting setting.now.outcome deed.now
            setting.now.after)
            (destination_at setting.now.scene call) value.now))) }
    {
        let apartment = slots_where(setting, setting.after);
        self.give_back(setting, apartment, deed, call, value)
    }

    // The links of an object, where it is in the apartment that ends.
    fn end_links(
        &mut self,
        setting: &EntrySetting<'_>,
        deed: &Deed,
        apartment: u32,
        object: u32,
    ) -> Result<(), Memory>
        requires { FitsDeed deed.now }
        ensures { OnOk result (self.new ≡ record self.old {
          lost = self.old.lost
              ++ (if named_at setting.now.objects object == apartment
              then all_moved (Some apartment) (links_stepped setting.now.scene setting.now.acting
              setting.now.outcome deed.now object)
              else []);
        }) }
    {
        if setting.objects.owner(object) != apartment {
            return Ok(());
        }
        self.lose_all(
            Some(apartment),
            &links_after(setting.scene, setting.acting, setting.outcome, deed, object),
        )
    }

    // A body is entered with values.
    fn enter(&mut self, apartment: u32, values: &[Value]) -> Result<(), Memory>
        ensures { OnOk result (self.new
            ≡ together self.old (record {
              lost = [];
              gained = all_moved (Some apartment)
                  (references values.now);
            })) }
    {
        self.gain_values(Some(apartment), values)
    }

    // A script loses all its slots.
    fn empty_script(
        &mut self,
        setting: &EntrySetting<'_>,
        deed: &Deed,
        lane: u32,
    ) -> Result<(), Memory>
        requires deed { FitsDeed deed.now }
        requires outcome { IsWhole setting.now.outcome }
        ensures { OnOk result (self.new ≡ together self.old (record {
          lost = all_moved setting.now.home
              (slots_stepped setting.now.scene setting.now.acting setting.now.outcome deed.now (Script lane));
          gained = [];
        })) }
    {
        let slots = slots_after(
            setting.scene,
            setting.acting,
            setting.outcome,
            deed,
            Actor::Script { lane },
        );
        self.lose_all(setting.home, &slots)
    }

    // An object that ends loses its links.
    fn finish(&mut self, setting: &EntrySetting<'_>, deed: &Deed, object: u32) -> Result<(), Memory>
        requires { FitsDeed deed.now }
        ensures { OnOk result (self.new ≡ together self.old (record {
          lost = all_moved (Some (named_at setting.now.objects object))
              (links_stepped setting.now.scene setting.now.acting setting.now.outcome deed.now object);
          gained = [];
        })) }
    {
        self.lose_all(
            Some(setting.objects.owner(object)),
            &links_after(setting.scene, setting.acting, setting.outcome, deed, object),
        )
    }

    // What the entry takes and brings beside the action.
    fn arrive(&mut self, setting: &EntrySetting<'_>, lane: u32, deed: &Deed) -> Result<(), Memory>
        requires deed { FitsDeed deed.now }
        requires outcome { IsWhole setting.now.outcome }
        requires bodies { BodiesWhole setting.now.scene }
        requires after { FrameWhole setting.now.scene setting.now.after }
        ensures { OnOk result (self.new
            ≡ together self.old (arrived_stepped (ground_at setting.now.home setting.now.objects
            setting.now.calls) setting.now.scene setting.now.acting setting.now.outcome setting.now.after
            lane deed.now)) }
    {
        match deed {
            Deed::Leave { call, value, .. } => self.leave(setting, deed, *call, value),
            Deed::Enter {
                apartment,
                values,
                ..
            } => self.enter(*apartment, values.as_slice()),
            Deed::Back { call, value, .. } => self.come_back(setting, deed, *call, value),
            Deed::Uninit { count: 0, .. } => self.empty_script(setting, deed, lane),
            Deed::Final { object } => self.finish(setting, deed, *object),
            _ => Ok(()),
        }
    }

    // The end of an STA takes the links of all its objects.
    fn end_sta(
        &mut self,
        setting: &EntrySetting<'_>,
        deed: &Deed,
        apartment: u32,
    ) -> Result<(), Memory>
        requires { FitsDeed deed.now }
        ensures { OnOk result (self.new ≡ record self.old {
          lost = self.old.lost
              ++ links_of_step (named_at setting.now.objects) setting.now.scene setting.now.acting
              setting.now.outcome deed.now apartment
              (one_to (length setting.now.objects.makings));
        }) }
    {
        let count = setting.objects.len();
        for object in 0..count {
            self.end_links(setting, deed, apartment, object + 1)?;
        }
        Ok(())
    }

    // What the end of an STA takes, where the entry ends one.
    fn end(&mut self, setting: &EntrySetting<'_>, deed: &Deed) -> Result<(), Memory>
        requires { FitsDeed deed.now }
        ensures { OnOk result (self.new
            ≡ together self.old (ended_stepped (ground_at setting.now.home setting.now.objects
            setting.now.calls) setting.now.scene setting.now.acting setting.now.outcome deed.now
            (ends_sta deed.now))) }
    {
        let Some(apartment) = ended_sta(deed) else {
            return Ok(());
        };
        self.end_sta(setting, deed, apartment)
    }

    // All that an entry takes and brings.
    #[tactic(auto, using(crate::proofs::Lists::all_together))]
    fn add_all(&mut self, setting: &EntrySetting<'_>, entry: &Entry) -> Result<(), Memory>
        requires deed { FitsDeed entry.now.deed }
        requires outcome { IsWhole setting.now.outcome }
        requires bodies { BodiesWhole setting.now.scene }
        requires after { FrameWhole setting.now.scene setting.now.after }
        ensures { OnOk result (self.new
            ≡ together self.old (moves_stepped (ground_at setting.now.home setting.now.objects
            setting.now.calls) setting.now.scene setting.now.acting setting.now.outcome setting.now.after
            entry.now)) }
    {
        self.act(setting, &entry.deed)?;
        self.arrive(setting, entry.lane, &entry.deed)?;
        self.end(setting, &entry.deed)
    }

    /// Fills the lists anew with all that an entry takes from places and brings to them, by what it rests on
    /// beside itself. `Memory`: no memory was left, and the lists are empty.
    pub fn fill(&mut self, setting: &EntrySetting<'_>, entry: &Entry) -> Result<(), Memory>
        requires deed { FitsDeed entry.now.deed }
        requires outcome { IsWhole setting.now.outcome }
        requires bodies { BodiesWhole setting.now.scene }
        requires after { FrameWhole setting.now.scene setting.now.after }
        ensures moves { OnOk result (self.new
            ≡ moves_stepped (ground_at setting.now.home setting.now.objects setting.now.calls)
            setting.now.scene setting.now.acting setting.now.outcome setting.now.after entry.now) }
        ensures err { OnErr result (self.new ≡ no_moves) }
    {
        self.clear();
        match self.add_all(setting, entry) {
            Ok(()) => Ok(()),
            Err(memory) => {
                self.clear();
                Err(memory)
            }
        }
    }
}
