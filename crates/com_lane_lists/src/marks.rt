//! What each outgoing call of a lane was last asked about.
ghost use Rattle.std.specs.Prelude.{◌≡◌, [], ◌∷◌, OnOk};
ghost use Rattle.com_model.specs.Waiting.{mark_of, without_mark};
ghost use Rattle.com_lane_lists.specs.Rooms.{HasRow};

use com_base::Memory;
use com_model::Mark;
use std::alloc::Global;
use std::collections::VecDeque;
use std::marker::Model;

/// The marks of a lane, the youngest first, one at most for each call, and for how many there is room.
#[derive(Debug, Drop)]
pub struct Marks {
    marks: VecDeque<Mark>,
}

impl Model for Marks {
    ghost use Rattle.std.specs.VecDeque.{deque_capacity};
    ghost use Rattle.com_model.specs.declared.keeps.Mark.{Mark};
    ghost use Rattle.com_lane_lists.specs.Rooms.{Roomed};

    ghost Value = { Roomed Mark };

    ghost view = { λ a. record { rows = a.marks.items; room = deque_capacity a.marks } };
}

impl Marks {
    /// No call was asked. It takes no memory.
    pub fn new(alloc: Global) -> Marks
        ensures { result.rows ≡ [] }
    {
        Marks {
            marks: VecDeque::new(alloc),
        }
    }

    /// The number of the word that a call was last asked about, or 0.
    pub fn of(&self, call: u32) -> u64
        ensures { result ≡ mark_of self.now.rows call }
    {
        mark_in(&self.marks, call)
    }

    /// Makes room for one mark more. The only error is want of memory.
    pub fn reserve(&mut self) -> Result<(), Memory>
        ensures rows { self.new.rows ≡ self.old.rows }
        ensures room { OnOk result (HasRow self.new) }
    {
        self.marks.reserve(1)
    }

    /// A call was asked about this word.
    pub fn set(&mut self, call: u32, number: u64)
        requires { HasRow self.old }
        ensures { self.new.rows ≡ record { call = call; number = number } ∷ without_mark call self.old.rows }
    {
        self.marks.retain(|mark| mark.call != call);
        self.marks.push_front_reserved(Mark { call, number });
    }

    /// A call came back.
    pub fn forget(&mut self, call: u32)
        ensures { self.new.rows ≡ without_mark call self.old.rows }
    {
        self.marks.retain(|mark| mark.call != call);
    }
}

// The number of the first mark of a call, or 0.
#[tactic(auto, using(crate::proofs::MarksLeft::mark_here, crate::proofs::MarksLeft::mark_next, crate::proofs::MarksLeft::mark_end))]
fn mark_in(marks: &VecDeque<Mark>, call: u32) -> u64
    ensures { result ≡ mark_of marks.now.items call }
{
    for i in 0..marks.len() {
        let mark = marks[i];
        if mark.call == call {
            return mark.number;
        }
    }
    0
}
