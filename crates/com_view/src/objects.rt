//! What the rules read of objects.

ghost use Rattle.std.specs.Prelude.{◌≡◌, filter};
ghost use Rattle.com_refs_books.specs.Changes.{Books};
ghost use Rattle.com_deeds.specs.Seen.{Sees, SeesObject};
ghost use Rattle.com_model.specs.Deeds.{owned_by};
ghost use Rattle.com_model.specs.Lists.{first};
ghost use Rattle.com_model.specs.Rules.{rule_final};
ghost use Rattle.com_state.specs.Parts.{named_at};
ghost use Rattle.com_view.specs.Connected.{Says};
ghost use Rattle.com_view.specs.Seen.{bare, sight_by, serves_seen, dying_seen, agile_seen};

use crate::sorts::Sort;
use crate::view::View;
use com_base::{HOST_STA, MTA, RefValue};
use com_classes::is_agile;
use com_deeds::{Target, number_or_zero};
use com_model::Deed;

impl<'a> View<'a> {
    /// Whether a lane serves an apartment: a thread's the STAs that it made, the host's lane the host's STA,
    /// and one of the pool the neutral and the multithreaded apartment.
    #[inline(always)]
    pub fn serves(&self, lane: u32, apartment: u32) -> bool
        ensures { result ≡ serves_seen self.now lane apartment }
    {
        match self.sort(lane) {
            Sort::Thread => self.lanes.serves(lane, apartment),
            Sort::Host => apartment == HOST_STA,
            Sort::Pool => apartment <= MTA,
            Sort::NoLane => false,
        }
    }

    // The first of these objects that the lane serves. A call of its own, since few looks come to it.
    #[inline(never)]
    fn first_served(&self, lane: u32, objects: &[u32]) -> Option<u32>
        ensures { result ≡ first (filter (λ o. serves_seen self.now lane
            (named_at self.now.objects o)) objects.now) }
    {
        for object in objects {
            if self.serves(lane, self.objects.owner(*object)) {
                return Some(*object);
            }
        }
        None
    }

    /// The first dying object that a lane serves.
    #[inline(always)]
    pub fn dying(&self, lane: u32) -> Option<u32>
        ensures { result ≡ first (dying_seen self.now lane) }
    {
        let fallen = self.fallen.as_slice();
        if fallen.is_empty() {
            return None;
        }
        self.first_served(lane, fallen)
    }

    /// The Final of the first dying object that a lane serves.
    pub fn finals(&self, lane: u32) -> Option<Deed>
        ensures { (b : Books) → result ≡ rule_final (sight_by self.now b) lane }
    {
        match self.dying(lane) {
            Some(object) => Some(Deed::Final { object }),
            None => None,
        }
    }

    /// Whether every apartment owns an object.
    pub fn is_agile(&self, object: u32) -> bool
        ensures { result ≡ agile_seen self.now object }
    {
        match self.scenario.classes.class(self.objects.class(object)) {
            Some(class) => is_agile(class.model),
            None => false,
        }
    }

    /// Whether the apartment that a lane runs in owns an object.
    pub fn owns(&self, lane: u32, object: u32) -> bool
        ensures { result ≡ owned_by (bare self.now) lane object }
    {
        if self.is_agile(object) {
            return true;
        }
        number_or_zero(self.running(lane)) == self.objects.owner(object)
    }

    /// The apartment in which a lane's body of an object runs: the object's own, and of an agile object the
    /// lane's.
    pub fn owner(&self, object: u32, lane: u32) -> u32
        ensures { result ≡ (bare self.now).owner object lane }
    {
        if self.is_agile(object) {
            return number_or_zero(self.running(lane));
        }
        self.objects.owner(object)
    }

    /// What a lane finds of an object, which is connected or is not.
    pub fn target(&self, lane: u32, object: u32, is_connected: bool) -> Target
        ensures { (b : Books) → b.live object ≡ is_connected
            → SeesObject (sight_by self.now b) lane object result }
    {
        Target {
            is_owned: self.owns(lane, object),
            is_connected,
            owner: self.objects.owner(object),
            class: self.objects.class(object),
        }
    }

    /// What a lane finds of the object of a reference, which is connected or is not, or of null.
    pub fn target_of(&self, lane: u32, held: Option<RefValue>, is_connected: bool) -> Target
        ensures { (b : Books) → Says b held is_connected → Sees (sight_by self.now b) lane held result }
    {
        match held {
            Some(held) => self.target(lane, held.object, is_connected),
            None => Target::NOTHING,
        }
    }
}
