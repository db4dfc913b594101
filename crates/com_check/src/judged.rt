//! What is answered for a trace.
ghost use Rattle.std.specs.Prelude.{◌≡◌, [], IfOk, OnOk};
ghost use Rattle.com_check.specs.Judging.{judged_text};
ghost use Rattle.com_check.specs.declared.judged.Judged.TheVariants as judged;

use com_base::{ByteList, Memory};
use itoa::Buffer;
use std::alloc::Global;

/// Whether a trace agrees with the rules.
#[derive(Debug, Drop)]
pub enum Judged {
    /// It is the text and the report of a history.
    Agrees,
    /// The first of its lines that differs: its number from 1, what stands there, and the only line that may
    /// stand there. `none` stands for no line.
    Differs {
        line: u64,
        found: ByteList,
        legal: ByteList,
    },
}

/// That a line differs. The only error is want of memory.
pub fn differs(alloc: Global, line: u64, found: &[u8], legal: &[u8]) -> Result<Judged, Memory>
    ensures { IfOk result (λ j. j ≡ judged.Differs line found.now legal.now) }
{
    Ok(Judged::Differs {
        line,
        found: ByteList::from_slice(alloc, found)?,
        legal: ByteList::from_slice(alloc, legal)?,
    })
}

impl Judged {
    /// What is printed of it: `agrees`; or the number of the line, what was found and what is legal, a line
    /// each. The only error is want of memory.
    pub fn text(&self, alloc: Global) -> Result<ByteList, Memory>
        ensures { IfOk result (λ text. text ≡ judged_text self.now) }
    {
        let mut text = ByteList::new(alloc);
        match self {
            Judged::Agrees => text.push_all(b"agrees\n")?,
            Judged::Differs { line, found, legal } => {
                push_differs(&mut text, *line, found.as_slice(), legal.as_slice())?;
            }
        }
        Ok(text)
    }
}

// Puts into an empty text that a line differs: its number, what was found and what is legal, a line
// each. The only error is want of memory.
fn push_differs(text: &mut ByteList, line: u64, found: &[u8], legal: &[u8]) -> Result<(), Memory>
    requires { text.old ≡ [] }
    ensures { OnOk result (text.new ≡ judged_text (judged.Differs line found.now legal.now)) }
{
    text.push_all(b"differs ")?;
    let mut digits = Buffer::new();
    text.push_all(digits.format(line).as_bytes())?;
    text.push_all(b"\nfound ")?;
    text.push_all(found)?;
    text.push_all(b"\nlegal ")?;
    text.push_all(legal)?;
    text.push_all(b"\n")
}
