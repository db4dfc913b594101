//! A method's line in an interface.

ghost use Rattle.std.specs.Prelude.{◌≡◌, ◌<◌, ◌^◌, [], drop};
ghost use Rattle.com_read_operands.specs.Reading.{Gives};
ghost use Rattle.com_read_lines.specs.Methods.{type_word_of, type_at, item_at, signature_on, method_of};

use com_base::{ByteList, Kind, PARAMETER_LIMIT, Rows};
use com_classes::Method;
use com_read_operands::{Fault, ScenarioError, declared_name, end, fault, name, stands, word};
use com_read_statements::method_position;
use com_text::Word;
use std::alloc::Global;

/// The kinds of a method's parameters and of its result.
#[derive(Drop)]
pub struct Signature {
    /// The kinds of the parameters, at most 4.
    pub params: Rows<Kind>,
    /// The kind of the result. `None` where the method has none.
    pub result: Option<Kind>,
}

/// A type in a method's line, and whether it is the result's.
#[derive(Clone, Copy)]
pub struct TypeWord {
    /// The type's kind.
    pub kind: Kind,
    /// Whether it is the type of the result, which stands behind `->`.
    pub last: bool,
}

// The kind that a word of the language names.
pub(crate) fn type_word_of(bytes: &[u8]) -> Option<Kind>
    ensures { result ≡ type_word_of bytes.now }
{
    if bytes == b"int".as_slice() {
        Some(Kind::Int)
    } else if bytes == b"bool".as_slice() {
        Some(Kind::Bool)
    } else if bytes == b"text".as_slice() {
        Some(Kind::Text)
    } else if bytes == b"bytes".as_slice() {
        Some(Kind::Bytes)
    } else if bytes == b"guid".as_slice() {
        Some(Kind::Guid)
    } else {
        None
    }
}

// A type: a word of the language, or an interface's name.
#[tactic(auto, unfolding(crate::specs::Methods::type_at))]
fn kind(interfaces: &[ByteList], line: &[Word], index: usize) -> Result<Kind, ScenarioError>
    ensures { Gives (λ k. k) result (type_at interfaces.now line.now index) }
{
    let word = word(line, index)?;
    match type_word_of(word.bytes) {
        Some(kind) => Ok(kind),
        None => Ok(Kind::Ref(declared_name(interfaces, line, index)?)),
    }
}

// A type of a method that has `count` parameters already: the next one's, or behind `->` the result's.
#[tactic(auto, unfolding(crate::specs::Methods::item_at))]
fn item(
    interfaces: &[ByteList],
    count: usize,
    line: &[Word],
    index: usize,
) -> Result<TypeWord, ScenarioError>
    requires { index < 2 ^ 63 }
    ensures { Gives (λ t. t) result (item_at interfaces.now count line.now index) }
{
    stands(line, index)?;
    let word = word(line, index)?;
    if word.bytes == b"->".as_slice() {
        let kind = kind(interfaces, line, index + 1)?;
        end(line, index + 2)?;
        return Ok(TypeWord { kind, last: true });
    }
    let kind = kind(interfaces, line, index)?;
    if count >= PARAMETER_LIMIT {
        return Err(fault(Fault::LIMIT, word));
    }
    Ok(TypeWord { kind, last: false })
}

// The types of a method's parameters, and behind `->` that of its result.
#[tactic(auto, using(crate::proofs::Lines::signature_more))]
fn signature_of(
    alloc: Global,
    interfaces: &[ByteList],
    line: &[Word],
) -> Result<Signature, ScenarioError>
    ensures { Gives (λ s. s) result (signature_on interfaces.now [] line.now 2 (drop 2 line.now)) }
{
    let mut params = Vec::new(alloc);
    for i in 2..line.len() {
        let item = item(interfaces, params.len(), line, i)?;
        if item.last {
            return Ok(Signature {
                params: Rows::from_vec(params),
                result: Some(item.kind),
            });
        }
        params.push(item.kind)?;
    }
    Ok(Signature {
        params: Rows::from_vec(params),
        result: None,
    })
}

/// The method that a line spells behind its first word, with a name that none of `methods` has: one that
/// has is fault `REPEATED`. A type is a word of the language or one of `interfaces`; a parameter more than
/// 4 is fault `LIMIT`. Faults of names and of the line's end come as the readers of `com_read_operands`
/// say.
#[tactic(auto, unfolding(crate::specs::Methods::method_of))]
pub fn method(
    alloc: Global,
    interfaces: &[ByteList],
    methods: &[Method],
    line: &[Word],
) -> Result<Method, ScenarioError>
    ensures { Gives (λ m. m) result (method_of interfaces.now methods.now line.now) }
{
    let word = name(line, 1)?;
    if method_position(methods, word.bytes).is_some() {
        return Err(fault(Fault::REPEATED, word));
    }
    let signature = signature_of(alloc, interfaces, line)?;
    Ok(Method {
        name: ByteList::from_slice(alloc, word.bytes)?,
        params: signature.params,
        result: signature.result,
    })
}
