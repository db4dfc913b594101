//! The words of one lane.
ghost use Rattle.std.specs.Prelude.{◌≡◌, ◌+◌, ◌<◌, ◌^◌, OnOk, length, slice_get};
ghost use Rattle.com_model.specs.Lists.{first};
ghost use Rattle.com_model.specs.Waiting.{no_mail, mail_after, mark_of, not_asked, Brings, Takes, Asks};
ghost use Rattle.com_model.specs.Waiting.{Forgets};
ghost use Rattle.std.specs.List.{remove};
ghost use Rattle.std.specs.List.Sorted.{IsNonDecreasingBy};
ghost use Rattle.com_lane_lists.specs.Rooms.{HasMark, HasWord};
ghost use Rattle.com_lane_lists.specs.Words.{number_of};

use crate::marks::Marks;
use com_base::Memory;
use com_model::Word;
use std::alloc::Global;
use std::collections::VecDeque;
use std::marker::Model;

// PENDINGMSG_WAITDEFPROCESS: the word that a filter was asked about goes.
const WAIT_DEFAULT: u8 = 2;

/// The words that were posted to a lane and not taken, and what each outgoing call was last asked about. Seen
/// with how many of both there is room for.
#[derive(Debug, Drop)]
pub struct Mail {
    posted: u64,
    words: VecDeque<Word>,
    marks: Marks,
}

impl Model for Mail {
    ghost use Rattle.std.specs.VecDeque.{deque_capacity};
    ghost use Rattle.com_lane_lists.specs.Rooms.{MailRows};
    ghost use Rattle.com_lane_lists.specs.Words.{Ascend, mail_of};

    ghost Value = { MailRows };

    ghost view = { λ a. record {
      mail = mail_of a.posted a.words.items a.marks.rows;
      words = deque_capacity a.words;
      marks = a.marks.room;
    } };

    ghost invariant = { λ a. Ascend 0 a.words.items a.posted };
}

impl Mail {
    /// No word was posted. It takes no memory.
    pub fn new(alloc: Global) -> Mail
        ensures { result.mail ≡ no_mail }
    {
        Mail {
            posted: 0,
            words: VecDeque::new(alloc),
            marks: Marks::new(alloc),
        }
    }

    /// The first word.
    pub fn first(&self) -> Option<Word>
        ensures { result ≡ first self.now.mail.words }
    {
        self.words.front().copied()
    }

    /// The first word that a call was not asked about yet.
    pub fn not_asked(&self, call: u32) -> Option<Word>
        ensures { result ≡ not_asked (mark_of self.now.mail.marks call) self.now.mail.words }
    {
        let place = place_after(&self.words, self.marks.of(call));
        word_at(&self.words, place)
    }

    /// Takes the first word off, if there is one.
    pub fn take(&mut self)
        ensures { self.new.mail ≡ mail_after Takes self.old.mail }
    {
        let _ = self.words.pop_front();
    }

    /// Makes room for one word more. The only error is want of memory.
    pub fn reserve_word(&mut self) -> Result<(), Memory>
        ensures mail { self.new.mail ≡ self.old.mail }
        ensures word { OnOk result (HasWord self.new) }
    {
        self.words.reserve(1)
    }

    /// Makes room for one mark more. The only error is want of memory.
    pub fn reserve_mark(&mut self) -> Result<(), Memory>
        ensures mail { self.new.mail ≡ self.old.mail }
        ensures mark { OnOk result (HasMark self.new) }
    {
        self.marks.reserve()
    }

    /// A word comes.
    pub fn bring(&mut self, word: i64)
        requires posted { self.old.mail.posted + 1 < 2 ^ 64 }
        requires room { HasWord self.old }
        ensures { self.new.mail ≡ mail_after (Brings word) self.old.mail }
    {
        let number = self.posted + 1;
        self.words.push_back_reserved(Word { number, word });
        self.posted = number;
    }

    /// A call is asked about the first word that it was not asked about yet, and the word goes where the
    /// answer is 2, PENDINGMSG_WAITDEFPROCESS.
    pub fn ask(&mut self, call: u32, answer: u8)
        requires room { HasMark self.old }
        ensures { self.new.mail ≡ mail_after (Asks call answer) self.old.mail }
    {
        let place = place_after(&self.words, self.marks.of(call));
        let Some(word) = word_at(&self.words, place) else {
            return;
        };
        self.marks.set(call, word.number);
        if answer == WAIT_DEFAULT {
            take_out(&mut self.words, place);
        }
    }

    /// A call came back.
    pub fn forget(&mut self, call: u32)
        ensures { self.new.mail ≡ mail_after (Forgets call) self.old.mail }
    {
        self.marks.forget(call);
    }
}

// The place of the first word with a number above this one, or the length.
fn place_after(words: &VecDeque<Word>, mark: u64) -> usize
    requires { IsNonDecreasingBy number_of words.now.items }
    ensures { slice_get words.now.items result ≡ not_asked mark words.now.items }
{
    words.partition_point(|word| word.number <= mark)
}

// The word at a place.
fn word_at(words: &VecDeque<Word>, place: usize) -> Option<Word>
    ensures { result ≡ slice_get words.now.items place }
{
    words.get(place).copied()
}

// Takes the word at a place out. All others keep their order.
fn take_out(words: &mut VecDeque<Word>, place: usize)
    requires { place < length words.old.items }
    ensures { words.new.items ≡ remove words.old.items place }
{
    let _ = words.remove(place);
}
