//! The Leaves that came after the answers of their calls, each at the index of its call.

ghost use Rattle.std.specs.Prelude.{◌≡◌, ◌-◌, ◌≤◌, ◌++◌, ℕ, None, replicate, vec_len, vec_capacity};
ghost use Rattle.std.specs.Option.{ForSome, option_copied};
ghost use Rattle.com_model.specs.Lists.{from_one};
ghost use Rattle.com_calls.specs.Leaves.{with_late_call};

use crate::rows::Left;

/// The Leave of a call that came after its answer. `None` exactly where none came.
pub fn leaving(later: &[Option<Left>], call: u32) -> Option<&Left>
    ensures { option_copied result ≡ from_one later.now call None }
{
    if call == 0 || call as usize > later.len() {
        return None;
    }
    later[call as usize - 1].as_ref()
}

/// Keeps the Leave of a call that came after its answer, or that there is none. It takes no memory, and
/// writes nothing where there is none and no later call has one.
#[tactic(auto, using(crate::proofs::Leaves::late_call_none, crate::proofs::Leaves::late_call_past, crate::proofs::Leaves::late_call_set, crate::proofs::Leaves::late_call_filled))]
pub fn keep(later: &mut Vec<Option<Left>>, call: u32, leaving: Option<Left>)
    requires { ForSome leaving (λ l. call ≤ vec_capacity later.old) }
    ensures items { later.new.items ≡ with_late_call later.old.items call leaving }
    ensures len { (n : ℕ) → vec_len later.old ≤ n → ForSome leaving (λ l. call ≤ n) → vec_len later.new ≤ n }
    ensures capacity { vec_capacity later.old ≤ vec_capacity later.new }
{
    if call == 0 {
        return;
    }
    let index = call as usize - 1;
    if index < later.len() {
        later[index] = leaving;
        return;
    }
    let Some(leaving) = leaving else {
        return;
    };
    fill(later, index);
    later.push_reserved(Some(leaving));
}

// Adds rows without a Leave until there are so many. There is room for them.
fn fill(later: &mut Vec<Option<Left>>, count: usize)
    requires more { vec_len later.old ≤ count }
    requires room { count ≤ vec_capacity later.old }
    ensures items { later.new.items ≡ later.old.items ++ replicate (count - vec_len later.old) None }
    ensures len { vec_len later.new ≡ count }
    ensures capacity { vec_capacity later.old ≤ vec_capacity later.new }
{
    for index in later.len()..count {
        later.push_reserved(None);
    }
}
