//! What a call comes back with: an HRESULT and a value, or the bytes of a reply that say them.
ghost use Rattle.std.specs.Prelude.{◌≡◌, IfOk, Ok, map, option_copied};
ghost use Rattle.com_model.specs.Frames.{value_reference};
ghost use Rattle.com_model.specs.Lists.{first};
ghost use Rattle.com_model.specs.Values.{carried, reply_bytes, result_list};
ghost use Rattle.com_exchange.specs.Answers.{IsReply, TravelsAs, answer_read};
ghost use Rattle.com_exchange.specs.Received.{packet_in_fields, reference_in_fields};
ghost use Rattle.com_exchange.specs.Replies.{reply_in};

use crate::ranges::{number_is_in_range, result_is_in_range};
use crate::replies::{ReplyError, read_reply};
use com_base::{ByteList, HResult, Kind, Memory, RefValue, StdFields, Value};
use std::alloc::{AllocError, Global};
use std::marker::Model;

/// An HRESULT, and the value that goes with it.
#[derive(Debug, Drop)]
pub struct Answered {
    /// The HRESULT.
    pub hr: HResult,
    /// The value. A failed call has none.
    pub value: Option<Value>,
}

// A reply that was written.
#[derive(Debug, Drop)]
struct Written {
    /// Its bytes.
    bytes: ByteList,
    /// The kind of the method's result.
    kind: Option<Kind>,
}

// How an answer is kept. The rows of calls have one each, so nothing in it is wider than it has to be.
#[derive(Debug, Drop)]
enum Form {
    /// The HRESULT and the value themselves.
    Value(HResult, Option<Value>),
    /// The bytes that say them, and no reference.
    Reply(Written),
    /// The bytes that say them, and the reference that is read in these. It lies beside them, so that asking for it
    /// takes no memory.
    Reference(Written, RefValue),
}

/// What the body of a call leaves with, seen as the HRESULT and the value. A direct call is left with these
/// themselves. A call that is marshalled is left with the bytes of its reply, which can be read, and the HRESULT and
/// the value are those that are read in them.
#[derive(Debug, Drop)]
pub struct Answer {
    form: Form,
}

impl Model for Answer {
    ghost use Rattle.com_exchange.specs.declared.answer.Answered.{Answered as Said};
    ghost use Rattle.com_exchange.specs.Answers.{IsReadable, answer_of};

    ghost Value = { Said };

    ghost view = { λ s. answer_of s.form };

    ghost invariant = { λ s. IsReadable s.form };
}

// An equal value, where there is one. The only error is want of memory.
fn copy_of(value: &Option<Value>) -> Result<Option<Value>, Memory>
    ensures { IfOk result (λ copy. copy ≡ value.now) }
{
    match value {
        None => Ok(None),
        Some(value) => Ok(Some(value.copy()?)),
    }
}

// The HRESULT and the value that the bytes of a reply say. The only error is want of memory.
#[tactic(auto, using(crate::proofs::Answering::no_fault))]
fn answer_in_bytes(alloc: Global, kind: Option<Kind>, bytes: &[u8]) -> Result<Answered, Memory>
    requires { IsReply (reply_in kind bytes.now) }
    ensures { IfOk result (λ answer. answer ≡ answer_read (reply_in kind bytes.now)) }
{
    match read_reply(alloc, kind, bytes) {
        Ok(reply) => Ok(Answered {
            hr: reply.hr,
            value: reply.value,
        }),
        Err(ReplyError::Memory) => Err(AllocError),
        Err(ReplyError::NoReply) => unreachable!(),
    }
}

// The reference in a value, where it is one and not null.
fn reference_of(value: Option<&Value>) -> Option<RefValue>
    ensures { result ≡ value_reference (option_copied value.entry) }
{
    match value {
        Some(Value::Ref(held)) => *held,
        _ => None,
    }
}

// What is read in the bytes of a reply are the HRESULT and the value that it was written of. All numbers are in the
// ranges of their types.
fn says_answer(hr: HResult, kind: Option<Kind>, value: Option<&Value>, packets: &[StdFields])
    requires travels { TravelsAs kind hr (option_copied value) }
    requires named { map reference_in_fields packets.now ≡ carried (result_list (option_copied value)) }
    ensures { reply_in kind (reply_bytes hr (option_copied value.entry) packets.now) ≡ Ok (record {
      hr = hr;
      value = option_copied value.entry;
      packet = first (map packet_in_fields packets.now);
    }) }
{
    number_is_in_range(hr.0);
    result_is_in_range(value, packets);
}

impl Answer {
    /// The HRESULT and the value themselves, as the body of a direct call leaves with them. It takes no memory.
    pub fn of_value(hr: HResult, value: Option<Value>) -> Answer
        ensures { result ≡ record { hr = hr; value = value } }
    {
        Answer {
            form: Form::Value(hr, value),
        }
    }

    /// The bytes of a reply that was written of this HRESULT and this value, whose reference, if it is one and not
    /// null, has the fields of the packet. The value is of the kind of the method's result, and none where the method
    /// has none or the call failed; a text is UTF-8, and a text or bytes are not longer than a count may say. The
    /// only error is want of memory.
    pub fn of_reply(
        hr: HResult,
        kind: Option<Kind>,
        value: Option<&Value>,
        packets: &[StdFields],
        bytes: &ByteList,
    ) -> Result<Answer, Memory>
        requires travels { TravelsAs kind hr (option_copied value) }
        requires named { map reference_in_fields packets.now ≡ carried (result_list (option_copied value)) }
        requires written { bytes.now ≡ reply_bytes hr (option_copied value) packets.now }
        ensures { IfOk result (λ answer. answer ≡ record { hr = hr; value = option_copied value.entry }) }
    {
        says_answer(hr, kind, value, packets);
        let written = Written {
            bytes: bytes.copy()?,
            kind,
        };
        match reference_of(value) {
            None => Ok(Answer {
                form: Form::Reply(written),
            }),
            Some(held) => Ok(Answer {
                form: Form::Reference(written, held),
            }),
        }
    }

    /// The HRESULT and the value, of a reply by reading its bytes. The only error is want of memory.
    pub fn read(&self, alloc: Global) -> Result<Answered, Memory>
        ensures { IfOk result (λ answer. answer ≡ self.now) }
    {
        match &self.form {
            Form::Value(hr, value) => Ok(Answered {
                hr: *hr,
                value: copy_of(value)?,
            }),
            Form::Reply(written) | Form::Reference(written, _) => {
                answer_in_bytes(alloc, written.kind, written.bytes.as_slice())
            }
        }
    }

    /// The reference in the value, and none where it is null or no reference. It takes no memory.
    pub fn reference(&self) -> Option<RefValue>
        ensures { result ≡ value_reference self.now.value }
    {
        match &self.form {
            Form::Value(_, value) => reference_of(value.as_ref()),
            Form::Reply(_) => None,
            Form::Reference(_, held) => Some(*held),
        }
    }
}
