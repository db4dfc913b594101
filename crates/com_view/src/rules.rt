//! Entries that need no references, and whether a lane's script acts.

ghost use Rattle.std.specs.Prelude.{◌≡◌};
ghost use Rattle.com_body.specs.declared.actions.Action.TheVariants as action;
ghost use Rattle.com_refs_books.specs.Changes.{Books};
ghost use Rattle.com_model.specs.Deeds.{deed_of};
ghost use Rattle.com_model.specs.Lists.{first};
ghost use Rattle.com_model.specs.Rules.{after_script, asked_on, is_script_turn, takes_word, top};
ghost use Rattle.com_model.specs.Tables.{lane_sort};
ghost use Rattle.com_model.specs.Waiting.{mark_of, not_asked};
ghost use Rattle.com_view.specs.Seen.{bare, sight_by};

use crate::sorts::Sort;
use crate::view::View;
use com_deeds::{in_sta, pending, uninit_deed};
use com_model::Deed;

impl<'a> View<'a> {
    // The question to the filter of a waiting caller what to do with the first word that the call was not asked about
    // yet (IMessageFilter::MessagePending). None without such a word, where the lane's home is no STA, and where the
    // call was not posted.
    pub(crate) fn pending_of(&self, lane: u32, call: u32) -> Option<Deed>
        ensures { result ≡ asked_on self.now.scenario (bare self.now) lane call
            (not_asked (mark_of ((bare self.now).mail lane).marks call) ((bare self.now).mail lane).words) }
    {
        let word = self.lanes.word_not_asked(lane, call)?;
        if !in_sta(self.home(lane)) {
            return None;
        }
        if !self.is_posted(call) {
            return None;
        }
        Some(Deed::Pending {
            call,
            word: word.word,
            answer: pending(self.scenario, self.filter(lane), self.since_out(call)),
        })
    }

    // The lane's first word; without a word the end of the pump where a quit stands, and else None.
    pub(crate) fn taken_word(&self, lane: u32) -> Option<Deed>
        ensures { result ≡ takes_word (first ((bare self.now).mail lane).words) ((bare self.now).quit lane) }
    {
        match self.lanes.first_word(lane) {
            Some(word) => Some(Deed::Word { word: word.word }),
            None => {
                if self.lanes.quit_stands(lane) {
                    Some(Deed::EndPump)
                } else {
                    None
                }
            }
        }
    }

    /// Whether the script of a lane acts next: of a thread's lane with nothing open that is not over.
    pub fn is_script_turn(&self, lane: u32) -> bool
        ensures { result ≡ is_script_turn (lane_sort self.now.scenario lane) (top (bare self.now) lane)
            ((bare self.now).over lane) }
    {
        if self.lanes.top(lane).is_some() {
            return false;
        }
        match self.sort(lane) {
            Sort::Thread => !self.lanes.is_over(lane),
            _ => false,
        }
    }

    /// The entry of `uninit` (CoUninitialize).
    pub fn uninit_deed(&self, lane: u32) -> Deed
        ensures { (b : Books) → result ≡ deed_of self.now.scenario (sight_by self.now b) lane action.Uninit }
    {
        uninit_deed(self.home(lane), self.lanes.count(lane))
    }

    /// What a thread's lane does after its script: it ends where it has no initialisation left, else it drops
    /// one.
    pub fn after_script(&self, lane: u32) -> Deed
        ensures { (b : Books) → result ≡ after_script (sight_by self.now b) lane }
    {
        if self.lanes.count(lane) == 0 {
            return Deed::End;
        }
        self.uninit_deed(lane)
    }
}
