//! The header's words.

ghost use Rattle.std.specs.Prelude.{◌≡◌};
ghost use Rattle.com_read_operands.specs.Reading.{Gives, error_of};
ghost use Rattle.com_read_lines.specs.Header.{lone_fault, version_of, version_at, earlier};

use com_read_operands::{Fault, ScenarioError, end, fault};
use com_text::{Sort, Word};

/// The fault of a text without words, or whose first line with words is `scenario` alone.
pub const FIRST: Fault = Fault {
    number: Fault::HEADER,
    line: 1,
    column: 1,
};

// The version that the header's second word names.
fn version_of(bytes: &[u8]) -> Option<u8>
    ensures { result ≡ version_of bytes.now }
{
    if bytes == b"1".as_slice() {
        Some(1)
    } else if bytes == b"2".as_slice() {
        Some(2)
    } else {
        None
    }
}

/// The fault of a header's line of one word, which is fault `HEADER`: at the text's first position where the
/// version alone is missing, and else at that word. An earlier fault, in a comment above, comes before
/// the latter.
pub fn lone(pending: Option<Fault>, word: &Word) -> ScenarioError
    ensures { result ≡ error_of (lone_fault pending word.now) }
{
    if word.bytes == b"scenario".as_slice() {
        return FIRST.error();
    }
    match pending {
        Some(earlier) => earlier.error(),
        None => fault(Fault::HEADER, word),
    }
}

/// The version that a header's line names, 1 or 2, by its first two words `one` and `two`. Where the
/// second is a comment, the fault is that of a lone first word. An earlier fault, in a comment above,
/// comes first. The two words are compared as they stand, whatever their bytes, and the first that
/// differs is fault `HEADER`. Behind them the line ends: what stands there is at fault as
/// `com_read_operands::end` says.
#[tactic(auto, unfolding(crate::specs::Header::version_at))]
pub fn version(
    pending: Option<Fault>,
    line: &[Word],
    one: &Word,
    two: &Word,
) -> Result<u8, ScenarioError>
    ensures { Gives (λ v. v) result (version_at pending line.now one.now two.now) }
{
    if let Sort::Remark(_) = two.sort() {
        return Err(lone(pending, one));
    }
    if let Some(earlier) = pending {
        return Err(earlier.error());
    }
    if one.bytes != b"scenario".as_slice() {
        return Err(fault(Fault::HEADER, one));
    }
    match version_of(two.bytes) {
        None => Err(fault(Fault::HEADER, two)),
        Some(version) => {
            end(line, 2)?;
            Ok(version)
        }
    }
}

/// The fault that is kept above the header: the pending one where there is one, since it is the earlier.
pub fn earlier(pending: Option<Fault>, fault: Fault) -> Option<Fault>
    ensures { result ≡ earlier pending fault }
{
    match pending {
        Some(first) => Some(first),
        None => Some(fault),
    }
}
