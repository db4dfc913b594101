//! The labels of the lanes that wait where a history is stuck.
ghost use Rattle.std.specs.Prelude.{◌≡◌, ◌++◌, OnOk};
ghost use Rattle.com_draw_labels.specs.Reasons.{body_label, message_label, pool_label};

use com_base::{ByteList, Memory};
use com_draw_words::push_word_and_number;

/// Appends the label of a lane that waits for a message. The only error is want of memory.
pub fn push_message_label(out: &mut ByteList) -> Result<(), Memory>
    ensures { OnOk result (out.new ≡ out.old ++ message_label) }
{
    out.push_all(b"waits for a message")
}

/// Appends the label of a lane that waits for a body. The only error is want of memory.
pub fn push_body_label(out: &mut ByteList, to: u32) -> Result<(), Memory>
    ensures { OnOk result (out.new ≡ out.old ++ body_label to) }
{
    push_word_and_number(out, b"waits for L", to)
}

/// Appends the label of a lane that waits for the pool. The only error is want of memory.
pub fn push_pool_label(out: &mut ByteList) -> Result<(), Memory>
    ensures { OnOk result (out.new ≡ out.old ++ pool_label) }
{
    out.push_all(b"waits for the pool")
}
