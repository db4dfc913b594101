//! The form of a `source` line, and what the lines above it say.

ghost use Rattle.std.specs.Prelude.{◌≡◌, IfOk, OnErr, slice_get};
ghost use Rattle.com_read_operands.specs.declared.faults.ScenarioError.TheVariants as errors;
ghost use Rattle.com_read_operands.specs.Reading.{Gives};
ghost use Rattle.com_points.specs.Heads.{IsCut, is_text, is_source_line, model_at, cut_of};
ghost use Rattle.com_points.specs.Heads.{names_point, is_point_guid, declares_point, nothing_seen};
ghost use Rattle.com_points.specs.Heads.{seen_behind, is_taken};

use crate::sources::is_point_iid;
use com_base::{Guid, Memory};
use com_read_operands::{Fault, ScenarioError, end, fault, guid, guid_of, name, word};
use com_text::Word;
use std::alloc::AllocError;

/// The first fault of a line's form.
#[derive(Clone, Copy, Debug, PartialEq, Eq)]
pub struct Cut {
    /// How many words stand in front of it, the word `source` among them.
    pub words: usize,
    /// What is wrong, and where.
    pub fault: Fault,
}

/// What the lines above a line declare.
#[derive(Clone, Copy, Debug, PartialEq, Eq)]
pub struct Seen {
    /// A source.
    pub source: bool,
    /// By a line of its own, an interface with the name or the IID of a source's interface.
    pub point: bool,
}

// Whether the word at an index is a text.
pub(crate) fn is_text(line: &[Word], index: usize, text: &[u8]) -> bool
    ensures { result ≡ is_text (slice_get line.now index) text.now }
{
    match line.get(index) {
        None => false,
        Some(word) => word.bytes == text,
    }
}

// Whether a line begins with the word `source`.
pub(crate) fn is_source_line(line: &[Word]) -> bool
    ensures { result ≡ is_source_line line.now }
{
    is_text(line, 0, b"source")
}

// The model of a source: `none` or `Apartment`.
#[tactic(auto, unfolding(crate::specs::Heads::model_at))]
fn model(line: &[Word], index: usize) -> Result<bool, ScenarioError>
    ensures { Gives (λ b. b) result (model_at line.now index) }
{
    let word = word(line, index)?;
    if word.bytes == b"none".as_slice() || word.bytes == b"Apartment".as_slice() {
        return Ok(true);
    }
    Err(fault(Fault::UNEXPECTED, word))
}

// The fault that a reader met behind so many words. The only error is want of memory, which comes exactly
// where the reader met it.
fn cut_at(words: usize, error: ScenarioError) -> Result<Option<Cut>, Memory>
    ensures cut { IfOk result (λ cut. IsCut words error cut) }
    ensures err { OnErr result (error ≡ errors.Memory) }
{
    match error {
        ScenarioError::Memory => Err(AllocError),
        ScenarioError::Fault {
            number,
            line,
            column,
        } => Ok(Some(Cut {
            words,
            fault: Fault {
                number,
                line,
                column,
            },
        })),
    }
}

// The first fault of a line's form: of its name, its GUID, its model, or a word behind them.
#[tactic(auto, using(crate::proofs::CutFaults::cut_found))]
pub(crate) fn cut_of(line: &[Word]) -> Result<Option<Cut>, Memory>
    ensures { IfOk result (λ cut. cut ≡ cut_of line.now) }
{
    match name(line, 1) {
        Err(error) => return cut_at(1, error),
        Ok(_) => {}
    }
    match guid(line, 2) {
        Err(error) => return cut_at(2, error),
        Ok(_) => {}
    }
    match model(line, 3) {
        Err(error) => return cut_at(3, error),
        Ok(_) => {}
    }
    match end(line, 4) {
        Err(error) => cut_at(4, error),
        Ok(_) => Ok(None),
    }
}

// Whether there is a GUID, and it is the IID of a source's interface.
#[tactic(auto, using(crate::proofs::Iids::iid_told))]
fn names_point(guid: Option<Guid>) -> bool
    ensures { result ≡ names_point guid }
{
    match guid {
        None => false,
        Some(guid) => is_point_iid(guid),
    }
}

// Whether a line declares an interface with the name or the IID of a source's interface.
fn declares_point(line: &[Word]) -> bool
    ensures { result ≡ declares_point line.now }
{
    is_text(line, 0, b"interface") && (is_text(line, 1, b"IPoint") || is_point_guid(line, 2))
}

// Whether the word at an index is the IID of a source's interface.
fn is_point_guid(line: &[Word], index: usize) -> bool
    ensures { result ≡ is_point_guid (slice_get line.now index) }
{
    match line.get(index) {
        None => false,
        Some(word) => names_point(guid_of(word.bytes)),
    }
}

impl Seen {
    // Above the first line.
    pub(crate) fn nothing() -> Seen
        ensures { result ≡ nothing_seen }
    {
        Seen {
            source: false,
            point: false,
        }
    }

    // What the lines down to this one declare.
    pub(crate) fn behind(self, line: &[Word]) -> Seen
        ensures { result ≡ seen_behind self line.now }
    {
        Seen {
            source: self.source || is_source_line(line),
            point: self.point || declares_point(line),
        }
    }

    // Whether the first source finds the name or the IID of its interface declared.
    pub(crate) fn is_taken(self) -> bool
        ensures { result ≡ is_taken self }
    {
        !self.source && self.point
    }
}
