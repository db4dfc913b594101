//! The tokens of a text.

ghost use Rattle.std.specs.Prelude.{◌≡◌, ◌<◌, ◌^◌, ◌++◌, ◌∷◌, [], OnOk, IfOk, IfErr, map, List, ℕ};
ghost use Rattle.com_text.specs.Tokens.{first_stray, token_sort, token_of, end_token, tokens_of, Refuses};
ghost use Rattle.com_text.specs.Scanning.{lines_of};
ghost use Rattle.com_text.specs.Sorts.{sort_of};
ghost use Rattle.com_text.specs.Cutting.{IsCut};
ghost use Rattle.com_text.specs.declared.token.TextError.TheVariants.{Memory};

use crate::line::line_at;
use crate::scan::LineEnd;
use crate::stray::first_stray;
use crate::word::{Kind, Word};
use std::alloc::{AllocError, AllocFailed, Global};

/// What a token is.
#[derive(Clone, Copy, Debug, PartialEq, Eq)]
pub enum TokenSort {
    /// A word that is no literal.
    Word,
    /// A text literal, with its marks.
    Text,
    /// A bytes literal, with its marks.
    Bytes,
    /// A literal that is not closed on its line.
    Unclosed,
    /// A line end.
    LineEnd,
}

/// A token: the bytes of the text from `start` up to `end`, and what they are.
#[derive(Clone, Copy, Debug, PartialEq, Eq)]
pub struct Token {
    /// The index of its first byte.
    pub start: usize,
    /// The index behind its last byte.
    pub end: usize,
    /// What it is.
    pub sort: TokenSort,
}

/// Why a text has no tokens.
#[derive(Clone, Copy, Debug, PartialEq, Eq)]
pub enum TextError {
    /// A byte outside the characters, at this index: the first such byte.
    Character(usize),
    /// There was not enough memory, or the text has nearly 2^32 bytes or more.
    Memory,
}

impl From<AllocError> for TextError {
    ghost from_gives = { λ _ e. e ≡ Memory };

    fn from(_error: AllocError) -> TextError {
        TextError::Memory
    }
}

impl<T: Drop> From<AllocFailed<T>> for TextError {
    ghost from_gives = { λ _ e. e ≡ Memory };

    fn from(_error: AllocFailed<T>) -> TextError {
        TextError::Memory
    }
}

/// A text has fewer bytes than this, so that its lines and columns are numbers of 32 bits.
pub const TEXT_LIMIT: usize = 0xffff_0000;

// A word's sort as a token's.
fn token_sort(kind: Kind) -> TokenSort
    ensures { (column : ℕ) → (bytes : List ℕ) → result ≡ token_sort (sort_of kind column bytes) }
{
    match kind {
        Kind::Text => TokenSort::Text,
        Kind::Bytes => TokenSort::Bytes,
        Kind::Unclosed => TokenSort::Unclosed,
        _ => TokenSort::Word,
    }
}

// A word's token.
fn token_of(word: &Word) -> Token
    ensures { result ≡ token_of word.now }
{
    let start = word.start as usize;
    Token {
        start,
        end: start + word.bytes.len(),
        sort: token_sort(word.kind),
    }
}

// Appends the tokens of a line's words.
fn push_words(words: &[Word], tokens: &mut Vec<Token>) -> Result<(), AllocError>
    ensures { OnOk result (tokens.new.items ≡ tokens.old.items ++ map token_of words.now) }
{
    for word in words {
        tokens.push(token_of(word))?;
    }
    Ok(())
}

// Appends a line end's token.
fn push_end(end: &LineEnd, tokens: &mut Vec<Token>) -> Result<(), AllocError>
    requires { end.now.at < 2 ^ 32 }
    ensures { OnOk result (tokens.new.items ≡ tokens.old.items ++ end_token end.now.at ∷ []) }
{
    tokens.push(Token {
        start: end.at,
        end: end.at + 1,
        sort: TokenSort::LineEnd,
    })?;
    Ok(())
}

/// The tokens of a text: its words and literals, and a token for each line end, in order. Each is a piece of
/// the text, and what stands between them is spaces and comments alone. `Character` comes exactly where a
/// byte is outside the characters, with the index of the first one, and `Memory` where memory is short.
#[tactic(auto, unfolding(crate::specs::Scanning::lines_of))]
pub fn tokens(alloc: Global, text: &[u8]) -> Result<Vec<Token>, TextError>
    ensures value { IfOk result (λ v. v.items ≡ tokens_of (lines_of text.now)) }
    ensures cut { IfOk result (λ v. IsCut text.now 0 v.items) }
    ensures characters { OnOk result (first_stray text.now ≡ None) }
    ensures err { IfErr result (Refuses text.now) }
{
    if let Some(at) = first_stray(text) {
        return Err(TextError::Character(at));
    }
    if text.len() >= TEXT_LIMIT {
        return Err(TextError::Memory);
    }
    let mut words = Vec::new(alloc);
    let mut tokens = Vec::new(alloc);
    let mut line = 1;
    let mut at = 0;
    'lines: loop {
        let end = line_at(text, line, at, &mut words)?;
        push_words(&words, &mut tokens)?;
        if end.last {
            return Ok(tokens);
        }
        push_end(&end, &mut tokens)?;
        line += 1;
        at = end.at + 1;
    }
}
