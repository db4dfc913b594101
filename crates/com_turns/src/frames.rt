//! Whether two frames are the same.

ghost use Rattle.std.specs.Prelude.{◌≡◌, ◌<◌, ◌↔◌, ℕ, [], None, IsTrue};
ghost use Rattle.com_base.specs.declared.limits.TheConstants.{REGISTER_COUNT, SLOT_COUNT};
ghost use Rattle.com_body.specs.Frames.{entered, no_number};
ghost use Rattle.com_body.specs.Operands.{register_of, slot_of};

use crate::values::{is_zero, same_value};
use com_base::{REGISTER_COUNT, SLOT_COUNT};
use com_body::Frame;

// Whether two frames have the same registers.
fn same_registers(left: &Frame, right: &Frame) -> bool
    ensures yes { IsTrue result → (r : ℕ) → r < REGISTER_COUNT → register_of left.now r ≡ register_of right.now r }
    ensures no { left.now ≡ right.now → IsTrue result }
{
    for number in 0..REGISTER_COUNT {
        if !same_value(left.register(number), right.register(number)) {
            return false;
        }
    }
    true
}

// Whether two frames have the same slots.
fn same_slots(left: &Frame, right: &Frame) -> bool
    ensures yes { IsTrue result → (k : ℕ) → k < SLOT_COUNT → slot_of left.now k ≡ slot_of right.now k }
    ensures no { left.now ≡ right.now → IsTrue result }
{
    for number in 0..SLOT_COUNT {
        if left.slot(number) != right.slot(number) {
            return false;
        }
    }
    true
}

/// Whether two frames are the same.
#[tactic(auto, using(crate::proofs::Same::same_frames))]
pub fn same_frame(left: &Frame, right: &Frame) -> bool
    ensures { IsTrue result ↔ (left.now ≡ right.now) }
{
    left.has_shape();
    right.has_shape();
    if left.place() != right.place() {
        return false;
    }
    if !same_slots(left, right) {
        return false;
    }
    same_registers(left, right)
}

// Whether each register of a frame has the Int 0.
fn has_no_registers(frame: &Frame) -> bool
    ensures yes { IsTrue result → (r : ℕ) → r < REGISTER_COUNT → register_of frame.now r ≡ no_number }
    ensures no { frame.now ≡ entered [] → IsTrue result }
{
    for number in 0..REGISTER_COUNT {
        if !is_zero(frame.register(number)) {
            return false;
        }
    }
    true
}

// Whether each slot of a frame is null.
fn has_no_slots(frame: &Frame) -> bool
    ensures yes { IsTrue result → (k : ℕ) → k < SLOT_COUNT → slot_of frame.now k ≡ None }
    ensures no { frame.now ≡ entered [] → IsTrue result }
{
    for number in 0..SLOT_COUNT {
        if frame.slot(number).is_some() {
            return false;
        }
    }
    true
}

/// Whether a frame is that of a body that was entered without values.
#[tactic(auto, using(crate::proofs::Same::first_frame))]
pub fn is_first_frame(frame: &Frame) -> bool
    ensures { IsTrue result ↔ (frame.now ≡ entered []) }
{
    frame.has_shape();
    if frame.place() != 0 {
        return false;
    }
    if !has_no_slots(frame) {
        return false;
    }
    has_no_registers(frame)
}
