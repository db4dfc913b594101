//! The order of postings. It exists only in proofs: it takes no memory, and its calls do nothing at run time.

ghost use Rattle.std.specs.Prelude.{◌≡◌, ℕ, List, []};
ghost use Rattle.std.specs.Borrow.{ftrue};
ghost use Rattle.com_model.specs.Waiting.{Posts, posted_last};

use std::marker::Model;

/// All calls that were posted, in the order of their last posting. A clause reads them as `calls`.
#[derive(Debug, Drop)]
pub struct Postings {
    pub ghost calls: { List ℕ },
}

impl Model for Postings {
    ghost also_owns = { λ _. ftrue };
}

// It owns nothing.
unsafe impl Send for Postings {}

impl Postings {
    /// No call was posted yet.
    pub fn none() -> Postings
        ensures { result.calls ≡ [] }
    {
        Postings {}
    }

    /// The order once this call was posted too.
    #[inline(always)]
    pub fn with_last(&self, _call: u32) -> Postings
        ensures { result.calls ≡ posted_last (Posts _call) self.now.calls }
    {
        Postings {}
    }
}
