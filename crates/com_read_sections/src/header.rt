//! The header.

ghost use Rattle.com_read_operands.specs.Reading.{Gives};
ghost use Rattle.com_read_sections.specs.Header.{header_line};

use crate::state::{Section, State};
use com_read_lines::{earlier, lone, version};
use com_read_operands::{Fault, ScenarioError};
use com_text::{Sort, Word};

// A line above the header or the header itself. What a comment above the header has at fault does not count
// where the header's line is `scenario` alone or missing: that is fault `HEADER` at the text's first
// position.
#[tactic(auto, unfolding(crate::specs::Header::header_line))]
pub(crate) fn header_line(
    st: &mut State,
    pending: Option<Fault>,
    line: &[Word],
) -> Result<(), ScenarioError>
    ensures { Gives (λ u. st.new) result (header_line st.old pending line.now) }
{
    match line {
        [] => {
            st.enter(Section::Header { pending });
            Ok(())
        }
        [only] => match only.sort() {
            Sort::Remark(column) => {
                let character = Fault {
                    number: Fault::CHARACTER,
                    line: only.line,
                    column,
                };
                st.enter(Section::Header {
                    pending: earlier(pending, character),
                });
                Ok(())
            }
            _ => Err(lone(pending, only)),
        },
        [one, two, ..] => {
            st.version = version(pending, line, one, two)?;
            st.enter(Section::Top);
            Ok(())
        }
    }
}
