//! Why a text is no scenario.

ghost use Rattle.std.specs.Prelude.{◌≡◌};
ghost use Rattle.com_read_operands.specs.declared.faults.ScenarioError.TheVariants.{Memory};
ghost use Rattle.com_read_operands.specs.Reading.{error_of};

use std::alloc::{AllocError, AllocFailed};

/// A fault of a text, and where it stands. Lines and columns count from 1, a column counts bytes.
///
/// The constants name the numbers, 1 to 12.
#[derive(Clone, Copy, Debug, PartialEq, Eq)]
pub struct Fault {
    /// What is wrong.
    pub number: u8,
    /// The line of the word at fault.
    pub line: u32,
    /// The column of the word at fault.
    pub column: u32,
}

impl Fault {
    /// The first two words are not the header.
    pub const HEADER: u8 = 1;
    /// A byte outside the characters.
    pub const CHARACTER: u8 = 2;
    /// A word that cannot stand here.
    pub const UNEXPECTED: u8 = 3;
    /// The line ends where a word is needed.
    pub const MISSING: u8 = 4;
    /// A word where no further word can stand.
    pub const EXTRA: u8 = 5;
    /// A word that is no number, or none of the range that is allowed there.
    pub const NUMBER: u8 = 6;
    /// A word that is no GUID.
    pub const GUID: u8 = 7;
    /// A name that is not declared above.
    pub const UNDECLARED: u8 = 8;
    /// A declaration that repeats one above.
    pub const REPEATED: u8 = 9;
    /// An operand of another sort than may stand there.
    pub const UNFIT: u8 = 10;
    /// A section that is open at the text's end, or a skip past the end of its body or script.
    pub const UNENDED: u8 = 11;
    /// One more than a limit allows.
    pub const LIMIT: u8 = 12;

    /// The fault as a reader's answer.
    pub fn error(self) -> ScenarioError
        ensures { result ≡ error_of self }
    {
        ScenarioError::Fault {
            number: self.number,
            line: self.line,
            column: self.column,
        }
    }
}

/// Why a text gives no scenario.
#[derive(Clone, Copy, Debug, PartialEq, Eq)]
pub enum ScenarioError {
    /// The first fault of the text by position, and the lowest number of those at one position.
    Fault {
        /// What is wrong: 1 to 12, as the constants of `Fault` name them.
        number: u8,
        /// The line of the word at fault, counted from 1.
        line: u32,
        /// The column of the word at fault, counted in bytes from 1.
        column: u32,
    },
    /// There was not enough memory, or the text has nearly 2^32 bytes or more.
    Memory,
}

impl From<AllocError> for ScenarioError {
    ghost from_gives = { λ _ e. e ≡ Memory };

    fn from(_error: AllocError) -> ScenarioError {
        ScenarioError::Memory
    }
}

impl<T: Drop> From<AllocFailed<T>> for ScenarioError {
    ghost from_gives = { λ _ e. e ≡ Memory };

    fn from(_error: AllocFailed<T>) -> ScenarioError {
        ScenarioError::Memory
    }
}
