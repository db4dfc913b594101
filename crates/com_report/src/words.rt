//! What a report is written with: the text that grows.
ghost use Rattle.std.specs.Prelude.{◌≡◌, ◌++◌, [], OnOk, decimal};

use com_base::{ByteList, Memory};
use itoa::Buffer;
use std::marker::Model;

/// A list of bytes to which a text is being appended, so that the text can be taken back where
/// memory is wanting in its middle.
#[derive(Drop)]
pub struct Text {
    bytes: ByteList,
    start: usize,
}

impl Model for Text {
    ghost use Rattle.std.specs.Prelude.{◌≤◌, length, take, drop};
    ghost use Rattle.com_report.specs.Written.{Written};

    ghost Value = { Written };

    ghost view = { λ s. record { front = take s.start s.bytes; text = drop s.start s.bytes } };

    ghost invariant = { λ s. s.start ≤ length s.bytes };
}

impl Text {
    /// An empty text behind these bytes.
    pub fn behind(bytes: ByteList) -> Text
        ensures { result ≡ record { front = bytes; text = [] } }
    {
        Text {
            start: bytes.len(),
            bytes,
        }
    }

    /// The bytes before the text, and the text.
    pub fn into_list(self) -> ByteList
        ensures { result ≡ self.front ++ self.text }
    {
        let Text { bytes, start: _ } = self;
        bytes
    }

    /// The bytes before the text alone.
    pub fn taken_back(self) -> ByteList
        ensures { result ≡ self.front }
    {
        let Text { mut bytes, start } = self;
        bytes.truncate(start);
        bytes
    }

    /// Appends bytes as they are.
    pub fn push(&mut self, piece: &[u8]) -> Result<(), Memory>
        ensures front { self.new.front ≡ self.old.front }
        ensures ok { OnOk result (self.new.text ≡ self.old.text ++ piece.now) }
    {
        self.bytes.push_all(piece)
    }

    /// Appends a word and a number in decimal digits.
    pub fn word_and_number(&mut self, word: &[u8], number: u64) -> Result<(), Memory>
        ensures front { self.new.front ≡ self.old.front }
        ensures ok { OnOk result (self.new.text ≡ self.old.text ++ word.now ++ decimal number) }
    {
        let mut digits = Buffer::new();
        self.push(word)?;
        self.push(digits.format(number).as_bytes())
    }
}
