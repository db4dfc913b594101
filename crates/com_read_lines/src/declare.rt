//! What a declaration's words say.

ghost use Rattle.std.specs.Prelude.{◌≡◌, [], drop, IfOk};
ghost use Rattle.com_read_operands.specs.Reading.{Gives};
ghost use Rattle.com_read_lines.specs.Declaring.{free_guid_at, free_name_at, interface_name_at};
ghost use Rattle.com_read_lines.specs.Declaring.{filter_name_at, model_at, native_at, listed_item};
ghost use Rattle.com_read_lines.specs.Declaring.{listed_on, listed_at, pick_at, picks_on};
ghost use Rattle.com_read_lines.specs.Declaring.{native_interface, natives_of};

use crate::methods::type_word_of;
use crate::tables::has_guid;
use com_base::{ByteList, Guid, ICOUNTER, ILATCH, IRELAY, IUNKNOWN, LISTED_LIMIT, Rows};
use com_body::Native;
use com_classes::ThreadingModel;
use com_read_operands::{
    Fault, ScenarioError, declared_name, fault, guid, name, number, position_of, stands, word,
};
use com_text::Word;
use std::alloc::{AllocError, Global};

// The greatest number that a line of picks may name: 32 bits hold it.
const LAST_LANE: u64 = 0xffff_ffff;

/// A GUID that is none of `guids`, those that are declared above: one that is, is fault `REPEATED`. Every
/// word that is no GUID is fault `GUID`.
#[tactic(auto, unfolding(crate::specs::Declaring::free_guid_at))]
pub fn free_guid(guids: &[Guid], line: &[Word], index: usize) -> Result<Guid, ScenarioError>
    ensures { Gives (λ g. g) result (free_guid_at guids.now line.now index) }
{
    let guid = guid(line, index)?;
    if has_guid(guids, &guid) {
        return Err(fault(Fault::REPEATED, word(line, index)?));
    }
    Ok(guid)
}

/// The word of a name that is none of `names`, those that are declared above: one that is, is fault
/// `REPEATED`. Every word that is no name is fault `UNEXPECTED`.
#[tactic(auto, unfolding(crate::specs::Declaring::free_name_at))]
pub fn free_name<'l, 'a>(
    names: &[ByteList],
    line: &'l [Word<'a>],
    index: usize,
) -> Result<&'l Word<'a>, ScenarioError>
    ensures { Gives (λ w. w.now) result (free_name_at names.now line.now index) }
{
    let word = name(line, index)?;
    if position_of(names, word.bytes).is_some() {
        return Err(fault(Fault::REPEATED, word));
    }
    Ok(word)
}

/// The word of an interface's name, the second of its line, which is no type of the language: one that
/// is, is fault `UNEXPECTED`. A name that is declared above is fault `REPEATED`.
#[tactic(auto, unfolding(crate::specs::Declaring::interface_name_at))]
pub fn interface_name<'l, 'a>(
    names: &[ByteList],
    line: &'l [Word<'a>],
) -> Result<&'l Word<'a>, ScenarioError>
    ensures { Gives (λ w. w.now) result (interface_name_at names.now line.now) }
{
    let word = name(line, 1)?;
    if type_word_of(word.bytes).is_some() {
        return Err(fault(Fault::UNEXPECTED, word));
    }
    free_name(names, line, 1)
}

/// The word of a filter's name, the second of its line, which is not `none`: that is fault `UNEXPECTED`. A
/// name that is declared above is fault `REPEATED`.
#[tactic(auto, unfolding(crate::specs::Declaring::filter_name_at))]
pub fn filter_name<'l, 'a>(
    names: &[ByteList],
    line: &'l [Word<'a>],
) -> Result<&'l Word<'a>, ScenarioError>
    ensures { Gives (λ w. w.now) result (filter_name_at names.now line.now) }
{
    let word = name(line, 1)?;
    if word.bytes == b"none".as_slice() {
        return Err(fault(Fault::UNEXPECTED, word));
    }
    free_name(names, line, 1)
}

/// A threading model. Every other word is fault `UNEXPECTED`.
#[tactic(auto, unfolding(crate::specs::Declaring::model_at))]
pub fn model(line: &[Word], index: usize) -> Result<ThreadingModel, ScenarioError>
    ensures { Gives (λ m. m) result (model_at line.now index) }
{
    let word = word(line, index)?;
    if word.bytes == b"none".as_slice() {
        Ok(ThreadingModel::Nothing)
    } else if word.bytes == b"Apartment".as_slice() {
        Ok(ThreadingModel::Apartment)
    } else if word.bytes == b"Free".as_slice() {
        Ok(ThreadingModel::Free)
    } else if word.bytes == b"Both".as_slice() {
        Ok(ThreadingModel::Both)
    } else if word.bytes == b"Neutral".as_slice() {
        Ok(ThreadingModel::Neutral)
    } else if word.bytes == b"Agile".as_slice() {
        Ok(ThreadingModel::Agile)
    } else {
        Err(fault(Fault::UNEXPECTED, word))
    }
}

/// The kind of a native class of a threading model. An agile class has no links, so an agile relay is
/// fault `UNFIT`. Every word that is no kind is fault `UNEXPECTED`.
#[tactic(auto, unfolding(crate::specs::Declaring::native_at))]
pub fn native(model: ThreadingModel, line: &[Word], index: usize) -> Result<Native, ScenarioError>
    ensures { Gives (λ n. n) result (native_at model line.now index) }
{
    let word = word(line, index)?;
    if word.bytes == b"counter".as_slice() {
        Ok(Native::Counter)
    } else if word.bytes == b"relay".as_slice() {
        match model {
            ThreadingModel::Agile => Err(fault(Fault::UNFIT, word)),
            _ => Ok(Native::Relay),
        }
    } else if word.bytes == b"latch".as_slice() {
        Ok(Native::Latch)
    } else {
        Err(fault(Fault::UNEXPECTED, word))
    }
}

// The number of the interface that a native class has.
fn native_interface(native: Native) -> u16
    ensures { result ≡ native_interface native }
{
    match native {
        Native::Bodies => IUNKNOWN,
        Native::Counter => ICOUNTER,
        Native::Relay => IRELAY,
        Native::Latch => ILATCH,
    }
}

/// The interfaces of a native class: the one of its kind. The only error is want of memory.
pub fn natives(alloc: Global, native: Native) -> Result<Rows<u16>, AllocError>
    ensures { IfOk result (λ r. r ≡ natives_of native) }
{
    let mut list = Vec::new(alloc);
    list.push(native_interface(native))?;
    Ok(Rows::from_vec(list))
}

/// The interfaces of a class by their numbers: one name or more from the fifth word on. Where none stands
/// there it is fault `MISSING`, a name that is none of `names` is fault `UNDECLARED`, and a name more than
/// 16 is fault `LIMIT`.
#[tactic(auto, unfolding(crate::specs::Declaring::listed_at))]
pub fn interface_list(
    alloc: Global,
    names: &[ByteList],
    line: &[Word],
) -> Result<Rows<u16>, ScenarioError>
    ensures { Gives (λ l. l) result (listed_at names.now line.now) }
{
    word(line, 4)?;
    listed_words(alloc, names, line)
}

// One more interface of a class that has `count` already.
#[tactic(auto, unfolding(crate::specs::Declaring::listed_item))]
fn listed_item(
    names: &[ByteList],
    count: usize,
    line: &[Word],
    index: usize,
) -> Result<u16, ScenarioError>
    ensures { Gives (λ n. n) result (listed_item names.now count line.now index) }
{
    stands(line, index)?;
    let number = declared_name(names, line, index)?;
    if count >= LISTED_LIMIT {
        return Err(fault(Fault::LIMIT, word(line, index)?));
    }
    Ok(number)
}

// The interfaces of a class by their numbers, one for each word from the line's fifth on.
#[tactic(auto, using(crate::proofs::Lines::listed_more))]
fn listed_words(
    alloc: Global,
    names: &[ByteList],
    line: &[Word],
) -> Result<Rows<u16>, ScenarioError>
    ensures { Gives (λ l. l) result (listed_on names.now [] line.now 4 (drop 4 line.now)) }
{
    let mut listed = Vec::new(alloc);
    for i in 4..line.len() {
        listed.push(listed_item(names, listed.len(), line, i)?)?;
    }
    Ok(Rows::from_vec(listed))
}

// One number of a line of picks.
#[tactic(auto, unfolding(crate::specs::Declaring::pick_at))]
fn pick(line: &[Word], index: usize) -> Result<u32, ScenarioError>
    ensures { Gives (λ n. n) result (pick_at line.now index) }
{
    stands(line, index)?;
    Ok(number(line, index, 0, LAST_LANE)? as u32)
}

/// The numbers of a line of picks, from its second word on, each 0 to 4,294,967,295: every other word is
/// fault `NUMBER`.
#[tactic(auto, using(crate::proofs::Lines::picks_more))]
pub fn picks(alloc: Global, line: &[Word]) -> Result<Vec<u32>, ScenarioError>
    ensures { Gives (λ l. l.items) result (picks_on [] line.now 1 (drop 1 line.now)) }
{
    let mut picks = Vec::new(alloc);
    for i in 1..line.len() {
        picks.push(pick(line, i)?)?;
    }
    Ok(picks)
}
