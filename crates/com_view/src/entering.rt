//! The Enter of a call, or why it is not let in.

ghost use Rattle.std.specs.Prelude.{◌≡◌, ◌&&◌, not, IfOk, if◌then◌else◌};
ghost use Rattle.com_refs_books.specs.Changes.{Books};
ghost use Rattle.com_model.specs.Rules.{admission, arguments_gone, call_sort, is_handled_in, posted_to_sta};
ghost use Rattle.com_model.specs.Rules.{verdict_on};
ghost use Rattle.com_model.specs.Answers.{RPC_E_SERVER_CANTUNMARSHAL_DATA};
ghost use Rattle.com_model.specs.Lists.{where_true};
ghost use Rattle.com_model.specs.Calls.{object_of};
ghost use Rattle.com_model.specs.declared.deeds.Deed.TheVariants as deed;
ghost use Rattle.com_view.specs.Seen.{bare, sight_by};

use crate::view::View;
use com_base::{HResult, Memory, OPENER_LIMIT};
use com_deeds::is_handled;
use com_model::Deed;
use std::alloc::Global;

impl<'a> View<'a> {
    // The call type that the Enter of a call has: of one that was posted to an STA.
    fn shown_sort(&self, lane: u32, call: u32) -> Option<u8>
        ensures { result ≡ where_true (posted_to_sta (bare self.now) call) (call_sort
            (bare self.now) lane call) }
    {
        if self.posted_to_sta(call) {
            Some(self.call_sort(lane, call))
        } else {
            None
        }
    }

    // The Enter of a call: its object and that one's owner, the call type where it was posted to an
    // STA, and the values that are read of what it sends. The only error is want of memory.
    fn enter_deed(&self, alloc: Global, lane: u32, call: u32) -> Result<Deed, Memory>
        ensures { IfOk result (λ made. made
            ≡ deed.Enter call (object_of ((bare self.now).issue call)) ((bare self.now).owner (object_of
            ((bare self.now).issue call)) lane)
            (where_true (posted_to_sta (bare self.now) call) (call_sort (bare self.now) lane call))
            ((bare self.now).unread call)) }
    {
        let object = self.object_of(call);
        let apartment = self.owner(object, lane);
        let call_type = self.shown_sort(lane, call);
        let values = self.calls.read_values(alloc, call)?;
        Ok(Deed::Enter {
            call,
            object,
            apartment,
            call_type,
            values,
        })
    }

    // A call that neither the depth of the lane nor its filter turns away. `is_gone` says that the packet of
    // an argument was given up.
    fn let_in(&self, alloc: Global, lane: u32, call: u32, is_gone: bool) -> Result<Deed, Memory>
        ensures { IfOk result (λ made. made ≡ (if is_gone
            then deed.Refuse call RPC_E_SERVER_CANTUNMARSHAL_DATA
            else deed.Enter call (object_of ((bare self.now).issue call)) ((bare self.now).owner (object_of
            ((bare self.now).issue call)) lane)
            (where_true (posted_to_sta (bare self.now) call) (call_sort (bare self.now) lane call))
            ((bare self.now).unread call))) }
    {
        if is_gone {
            return Ok(Deed::Refuse {
                call,
                hr: HResult::RPC_E_SERVER_CANTUNMARSHAL_DATA,
            });
        }
        self.enter_deed(alloc, lane, call)
    }

    // The Verdict of the lane's filter that turns a call away.
    fn turned_away(&self, lane: u32, call: u32) -> Option<Deed>
        ensures { result ≡ where_true (posted_to_sta (bare self.now) call && not
            (is_handled_in self.now.scenario (bare self.now) lane call))
            (deed.Verdict call (call_sort (bare self.now) lane call)
            (verdict_on self.now.scenario (bare self.now) lane call)) }
    {
        if !self.posted_to_sta(call) {
            return None;
        }
        let verdict = self.verdict_on(lane, call);
        if is_handled(verdict) {
            return None;
        }
        let call_type = self.call_sort(lane, call);
        Some(Deed::Verdict {
            call,
            call_type,
            verdict,
        })
    }

    /// The admission of a call in a lane: a refusal at 256 openers, the verdict of the lane's filter on a
    /// call posted to an STA where it turns the call away, a refusal where the packet of an argument was
    /// given up, as `is_gone` says, else the Enter. The only error is want of memory.
    pub fn admission(
        &self,
        alloc: Global,
        lane: u32,
        call: u32,
        is_gone: bool,
    ) -> Result<Deed, Memory>
        ensures { (b : Books) → arguments_gone (sight_by self.now b) call ≡ is_gone
            → IfOk result (λ made. made ≡ admission self.now.scenario (sight_by self.now b) lane call) }
    {
        if self.lanes.depth(lane) >= OPENER_LIMIT {
            return Ok(Deed::Refuse {
                call,
                hr: HResult::RPC_E_OUT_OF_RESOURCES,
            });
        }
        if let Some(verdict) = self.turned_away(lane, call) {
            return Ok(verdict);
        }
        self.let_in(alloc, lane, call, is_gone)
    }
}
