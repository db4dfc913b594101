//! An entry of a lane, as a change of the tables, by its deed.
ghost use Rattle.std.specs.Prelude.{◌≡◌, ℕ, Some, [], slice_index_or};
ghost use Rattle.com_body.specs.Frames.{entered};
ghost use Rattle.com_model.specs.declared.deeds.Deed.TheVariants as of_deed;
ghost use Rattle.com_model.specs.Apartments.{ends_sta};
ghost use Rattle.com_state.specs.SceneParts.{links_cut, rows_after, rows_arrived, with_rows};
ghost use Rattle.com_scene.specs.Actors.{acting_of};
ghost use Rattle.com_scene.specs.Kept.{IsKept, IsStep};
ghost use Rattle.com_scene.specs.Prepared.{HasBody, HasRowFor, HasSeatAfter, IsPrepared, IsTaken, result_in};
ghost use Rattle.com_scene.specs.Ranges.{FitsDeed};
ghost use Rattle.com_scene.specs.Rooms.{room_of};
ghost use Rattle.com_scene.specs.Seen.{seen, seat_of, seats_of, HasSeatFor, KeepsSeats};

use crate::actor::{ActedEntry, Actor};
use crate::prepare::Taken;
use crate::tables::{Seat, Tables};
use com_base::{HOST_STA, HResult, Value};
use com_body::{Destination, Outcome};
use com_model::Deed;

// The copy that was taken of a value, where there is one.
fn own(value: &Option<Value>, taken: &mut Option<Value>) -> Option<Value>
    requires { IsTaken value.now taken.old }
    ensures { result ≡ value.now }
{
    match value {
        Some(_) => taken.take(),
        None => None,
    }
}

impl Tables {
    // A row for the call that an entry issues, or for the object that it makes.
    fn add_row(&mut self, lane: u32, deed: &Deed)
        requires room { HasRowFor (room_of self.old) deed.now }
        ensures tables { seen self.new
            ≡ with_rows (record { lane = lane; deed = deed.now }) (seen self.old) }
        ensures seats { KeepsSeats (seats_of self.old.calls.items) (seats_of self.new.calls.items) }
    {
        match deed {
            Deed::Out { .. } => self.add_call(),
            Deed::Made {
                object: Some(_),
                apartment: Some(_),
                ..
            } => self.add_object(),
            _ => {}
        }
    }

    // A call comes back to whoever acts afterwards.
    #[tactic(auto, using(crate::proofs::KeptLemmas::destination_in_range))]
    fn give_back(
        &mut self,
        after: Actor,
        call: u32,
        hr: HResult,
        value: Option<Value>,
        spare: &mut Option<Seat>,
    )
        requires kept { IsKept (seen self.old) }
        requires seat { HasSeatFor (seats_of self.old.calls.items) (acting_of after) spare.old }
        requires fresh { seat_of spare.old ≡ entered [] }
        ensures { (lane : ℕ) → seen self.new
            ≡ rows_arrived (acting_of after) lane (of_deed.Back call hr value) (seen self.old) }
    {
        let to = self.destination(call);
        self.give(after, hr, to, value, spare);
    }

    // What the entry does beside the step of whoever acts, with what was taken for it: a spare frame for
    // whoever acts afterwards, the frame of a body that begins, and the value with which a call comes back.
    fn arrive(
        &mut self,
        after: Actor,
        lane: u32,
        deed: &Deed,
        spare: &mut Option<Seat>,
        body: &mut Option<Seat>,
        taken: &mut Option<Value>,
    )
        requires kept { IsKept (seen self.old) }
        requires seat { HasSeatAfter (seats_of self.old.calls.items) (acting_of after) deed.now spare.old }
        requires fresh { seat_of spare.old ≡ entered [] }
        requires body { HasBody deed.now body.old }
        requires value { IsTaken (result_in deed.now) taken.old }
        ensures { seen self.new ≡ rows_arrived (acting_of after) lane deed.now (seen self.old) }
    {
        match deed {
            Deed::Enter { call, .. } => self.enter(*call, body),
            Deed::Leave { call, .. } => self.leave(*call),
            Deed::Back { call, hr, value } => {
                self.give_back(after, *call, *hr, own(value, taken), spare)
            }
            Deed::EndPump => self.give(after, HResult::S_OK, Destination::Nowhere, None, spare),
            Deed::Uninit { count: 0, .. } => self.clear_script(lane),
            Deed::Final { object } => self.clear_links(*object),
            _ => {}
        }
    }

    // Makes the links of all objects null that the STA owns which the entry ends, if it ends one.
    fn cut_ended(&mut self, deed: &Deed, owners: &[u32])
        ensures { seen self.new
            ≡ links_cut (λ o. slice_index_or owners.now o 0) (ends_sta deed.now) (seen self.old) }
    {
        match deed {
            Deed::Uninit {
                home: Some(home),
                count: 0,
            } => self.cut_home(*home, owners),
            _ => {}
        }
    }

    // Makes the links of all objects of an apartment null, where it is an STA.
    fn cut_home(&mut self, home: u32, owners: &[u32])
        ensures { seen self.new
            ≡ links_cut (λ o. slice_index_or owners.now o 0) (ends_sta (of_deed.Uninit (Some home) 0))
            (seen self.old) }
    {
        if home >= HOST_STA {
            self.cut_links(home, owners);
        }
    }

    /// The tables after an entry of a lane, for which memory was taken, by the step of whoever makes it. The
    /// list has the apartment of each object, from 0; only the end of an STA reads it. What is left of the
    /// step has no use any more.
    pub fn apply(
        &mut self,
        taken: &mut Taken,
        entry: &ActedEntry<'_>,
        outcome: &mut Option<Outcome>,
        owners: &[u32],
    )
        requires deed { FitsDeed entry.now.deed.now }
        requires step { IsStep (acting_of entry.now.acting) outcome.old }
        requires kept { IsKept (seen self.old) }
        requires ready { IsPrepared (acting_of entry.now.acting) (acting_of entry.now.after) entry.now.deed.now
            (room_of self.old) taken.old }
        ensures { seen self.new
            ≡ rows_after (λ o. slice_index_or owners.now o 0) (acting_of entry.now.acting) outcome.old
            (acting_of entry.now.after) (record { lane = entry.now.lane; deed = entry.now.deed.now })
            (seen self.old) }
    {
        let ActedEntry {
            lane,
            deed,
            acting,
            after,
        } = *entry;
        self.add_row(lane, deed);
        self.act(acting, outcome, deed, &mut taken.acting, &mut taken.packet);
        self.arrive(
            after,
            lane,
            deed,
            &mut taken.after,
            &mut taken.body,
            &mut taken.value,
        );
        self.cut_ended(deed, owners);
    }
}
