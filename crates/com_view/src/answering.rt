//! What the lane's own call comes back with.

ghost use Rattle.std.specs.Prelude.{◌≡◌, IfOk, option_map, if◌then◌else◌};
ghost use Rattle.com_base.specs.declared.hresult.HResult.{HResult};
ghost use Rattle.com_refs_books.specs.Changes.{Books};
ghost use Rattle.com_model.specs.Answers.{RPC_E_CLIENT_CANTUNMARSHAL_DATA};
ghost use Rattle.com_model.specs.Endings.{answer_of, without_value};
ghost use Rattle.com_model.specs.Rules.{back_answer, back_with, due_of, result_gone};
ghost use Rattle.com_view.specs.Seen.{sight_by};

use crate::view::View;
use com_base::{HResult, Memory, Value};
use com_deeds::answer_code;
use com_model::{Deed, Ending};
use std::alloc::Global;

// The value that an answer has.
fn value_of(ending: Ending) -> Option<Value>
    ensures { (hr : HResult) → result ≡ (answer_of hr ending).value }
{
    match ending {
        Ending::ByLeave(_, value) => value,
        _ => None,
    }
}

// The Back of a call with this answer; with RPC_E_CLIENT_CANTUNMARSHAL_DATA where the packet of its result is
// gone.
fn back_of(call: u32, ending: Ending, refusal: HResult, is_gone: bool) -> Deed
    ensures { result ≡ back_with call (if is_gone
        then without_value RPC_E_CLIENT_CANTUNMARSHAL_DATA else answer_of refusal ending) }
{
    if is_gone {
        return Deed::Back {
            call,
            hr: HResult::RPC_E_CLIENT_CANTUNMARSHAL_DATA,
            value: None,
        };
    }
    let hr = answer_code(&ending, refusal);
    Deed::Back {
        call,
        hr,
        value: value_of(ending),
    }
}

impl<'a> View<'a> {
    /// The Back of a call, where it has an answer: what a reply says is read in its bytes. `is_gone` says that its
    /// answer is that of a body, and that the packet of its result was given up. The only error is want of memory.
    pub fn back(&self, alloc: Global, call: u32, is_gone: bool) -> Result<Option<Deed>, Memory>
        ensures { (b : Books) → result_gone (sight_by self.now b) call (b.result call) ≡ is_gone →
            IfOk result (λ deed. deed ≡ option_map (λ x. back_with call (back_answer
            (sight_by self.now b) call x)) (due_of (sight_by self.now b) call)) }
    {
        match self.calls.read_ending(alloc, call)? {
            None => Ok(None),
            Some(ending) => {
                let refusal = self.calls.refusal(call);
                Ok(Some(back_of(call, ending, refusal, is_gone)))
            }
        }
    }
}
