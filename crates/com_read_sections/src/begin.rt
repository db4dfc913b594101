//! Lines outside of sections: declarations, and the lines that open a section.

ghost use Rattle.std.specs.Prelude.{◌≡◌, ◌++◌, ◌∷◌, [], IfOk, OnOk};
ghost use Rattle.com_read_operands.specs.Reading.{Gives};
ghost use Rattle.com_read_sections.specs.Beginning.{section_word_of, pool_line, interface_line, class_line};
ghost use Rattle.com_read_sections.specs.Beginning.{native_line, filter_line, thread_line, picks_line};
ghost use Rattle.com_read_sections.specs.Beginning.{top_line};

use crate::state::{Section, State};
use com_base::{
    ByteList, CLASS_LIMIT, FILTER_LIMIT, Guid, INTERFACE_LIMIT, POOL_LIMIT, Rows, THREAD_LIMIT,
};
use com_body::Native;
use com_classes::{Class, Interface};
use com_read_lines::{
    Code, filter_name, free_guid, free_name, interface_list, interface_name, model, native,
    natives, picks,
};
use com_read_operands::{Fault, ScenarioError, end, fault, first, number};
use com_text::Word;
use std::alloc::{AllocError, Global};

/// The word that begins a line outside of sections.
#[derive(Clone, Copy, Debug, PartialEq, Eq)]
pub enum SectionWord {
    /// `pool`: how many lanes the multithreaded apartment has.
    Pool,
    /// `interface`, with its methods up to the next section.
    Interface,
    /// `class`, with its bodies.
    Class,
    /// `native`: a class whose bodies are built in.
    Native,
    /// `filter`, with its rules.
    Filter,
    /// `thread`, with the statements of its script.
    Thread,
    /// `picks`: the lanes of the schedule.
    Picks,
}

// Which of the words that begin a line outside of sections these bytes are, if they are one.
fn section_word_of(bytes: &[u8]) -> Option<SectionWord>
    ensures { result ≡ section_word_of bytes.now }
{
    if bytes == b"pool".as_slice() {
        Some(SectionWord::Pool)
    } else if bytes == b"interface".as_slice() {
        Some(SectionWord::Interface)
    } else if bytes == b"class".as_slice() {
        Some(SectionWord::Class)
    } else if bytes == b"native".as_slice() {
        Some(SectionWord::Native)
    } else if bytes == b"filter".as_slice() {
        Some(SectionWord::Filter)
    } else if bytes == b"thread".as_slice() {
        Some(SectionWord::Thread)
    } else if bytes == b"picks".as_slice() {
        Some(SectionWord::Picks)
    } else {
        None
    }
}

// Declares a name with its GUID, and gives the name once more.
fn declare(
    alloc: Global,
    names: &mut Rows<ByteList>,
    guids: &mut Rows<Guid>,
    name: &Word,
    guid: Guid,
) -> Result<ByteList, AllocError>
    ensures value { IfOk result (λ n. n ≡ name.now.bytes) }
    ensures named { OnOk result (names.new ≡ names.old ++ name.now.bytes ∷ []) }
    ensures identified { OnOk result (guids.new ≡ guids.old ++ guid ∷ []) }
{
    names.push(ByteList::from_slice(alloc, name.bytes)?)?;
    guids.push(guid)?;
    ByteList::from_slice(alloc, name.bytes)
}

// A `pool` line: the lanes of the pool, given at most once.
#[tactic(auto, unfolding(crate::specs::Beginning::pool_line))]
fn pool_line(st: &mut State, word: &Word, line: &[Word]) -> Result<(), ScenarioError>
    ensures { Gives (λ u. st.new) result (pool_line st.old word.now line.now) }
{
    if st.pool.is_some() {
        return Err(fault(Fault::REPEATED, word));
    }
    let lanes = number(line, 1, 1, POOL_LIMIT as u64)? as u32;
    end(line, 2)?;
    st.pool = Some(lanes);
    Ok(())
}

// An `interface` line: its name and IID are declared, and it is open for its methods.
#[tactic(auto, unfolding(crate::specs::Beginning::interface_line))]
fn interface_line(
    alloc: Global,
    st: &mut State,
    word: &Word,
    line: &[Word],
) -> Result<(), ScenarioError>
    ensures { Gives (λ u. st.new) result (interface_line st.old word.now line.now) }
{
    if st.names.interfaces.len() >= INTERFACE_LIMIT {
        return Err(fault(Fault::LIMIT, word));
    }
    let name = interface_name(st.names.interfaces.as_slice(), line)?;
    let iid = free_guid(st.iids.as_slice(), line, 2)?;
    end(line, 3)?;
    let interface = Interface {
        name: declare(alloc, &mut st.names.interfaces, &mut st.iids, name, iid)?,
        iid,
        methods: Rows::new(alloc),
    };
    st.enter(Section::Interface { interface });
    Ok(())
}

// A `class` line: its name and CLSID are declared, and it is open for its bodies.
#[tactic(auto, unfolding(crate::specs::Beginning::class_line))]
fn class_line(
    alloc: Global,
    st: &mut State,
    word: &Word,
    line: &[Word],
) -> Result<(), ScenarioError>
    ensures { Gives (λ u. st.new) result (class_line st.old word.now line.now) }
{
    if st.names.classes.len() >= CLASS_LIMIT {
        return Err(fault(Fault::LIMIT, word));
    }
    let name = free_name(st.names.classes.as_slice(), line, 1)?;
    let clsid = free_guid(st.clsids.as_slice(), line, 2)?;
    let model = model(line, 3)?;
    let interfaces = interface_list(alloc, st.names.interfaces.as_slice(), line)?;
    let class = Class {
        name: declare(alloc, &mut st.names.classes, &mut st.clsids, name, clsid)?,
        clsid,
        model,
        native: Native::Bodies,
        interfaces,
        bodies: Rows::new(alloc),
    };
    st.enter(Section::Class { class });
    Ok(())
}

// A `native` line: a class with built-in bodies is declared whole. No section is opened.
#[tactic(auto, unfolding(crate::specs::Beginning::native_line))]
fn native_line(
    alloc: Global,
    st: &mut State,
    word: &Word,
    line: &[Word],
) -> Result<(), ScenarioError>
    ensures { Gives (λ u. st.new) result (native_line st.old word.now line.now) }
{
    if st.names.classes.len() >= CLASS_LIMIT {
        return Err(fault(Fault::LIMIT, word));
    }
    let name = free_name(st.names.classes.as_slice(), line, 1)?;
    let clsid = free_guid(st.clsids.as_slice(), line, 2)?;
    let model = model(line, 3)?;
    let native = native(model, line, 4)?;
    end(line, 5)?;
    let class = Class {
        name: declare(alloc, &mut st.names.classes, &mut st.clsids, name, clsid)?,
        clsid,
        model,
        native,
        interfaces: natives(alloc, native)?,
        bodies: Rows::new(alloc),
    };
    st.classes.push(class)?;
    Ok(())
}

// A `filter` line: its name is declared, and it is open for its rules.
#[tactic(auto, unfolding(crate::specs::Beginning::filter_line))]
fn filter_line(
    alloc: Global,
    st: &mut State,
    word: &Word,
    line: &[Word],
) -> Result<(), ScenarioError>
    ensures { Gives (λ u. st.new) result (filter_line st.old word.now line.now) }
{
    if st.names.filters.len() >= FILTER_LIMIT {
        return Err(fault(Fault::LIMIT, word));
    }
    let name = filter_name(st.names.filters.as_slice(), line)?;
    end(line, 2)?;
    let own = ByteList::from_slice(alloc, name.bytes)?;
    st.names.filters.push(own)?;
    st.enter(Section::Filter {
        rules: Rows::new(alloc),
    });
    Ok(())
}

// A `thread` line: a script is open for its statements.
#[tactic(auto, unfolding(crate::specs::Beginning::thread_line))]
fn thread_line(
    alloc: Global,
    st: &mut State,
    word: &Word,
    line: &[Word],
) -> Result<(), ScenarioError>
    ensures { Gives (λ u. st.new) result (thread_line st.old word.now line.now) }
{
    if st.threads.len() >= THREAD_LIMIT {
        return Err(fault(Fault::LIMIT, word));
    }
    end(line, 1)?;
    st.enter(Section::Thread {
        code: Code::new(alloc),
    });
    Ok(())
}

// A `picks` line: its lanes go behind those of the earlier ones.
#[tactic(auto, unfolding(crate::specs::Beginning::picks_line))]
fn picks_line(alloc: Global, st: &mut State, line: &[Word]) -> Result<(), ScenarioError>
    ensures { Gives (λ u. st.new) result (picks_line st.old line.now) }
{
    let more = picks(alloc, line)?;
    st.picks.append(more)?;
    Ok(())
}

// A line outside of sections.
#[tactic(auto, unfolding(crate::specs::Beginning::top_line))]
pub(crate) fn top_line(alloc: Global, st: &mut State, line: &[Word]) -> Result<(), ScenarioError>
    ensures { Gives (λ u. st.new) result (top_line st.old line.now) }
{
    let word = first(line)?;
    match section_word_of(word.bytes) {
        None => Err(fault(Fault::UNEXPECTED, word)),
        Some(SectionWord::Pool) => pool_line(st, word, line),
        Some(SectionWord::Interface) => interface_line(alloc, st, word, line),
        Some(SectionWord::Class) => class_line(alloc, st, word, line),
        Some(SectionWord::Native) => native_line(alloc, st, word, line),
        Some(SectionWord::Filter) => filter_line(alloc, st, word, line),
        Some(SectionWord::Thread) => thread_line(alloc, st, word, line),
        Some(SectionWord::Picks) => picks_line(alloc, st, line),
    }
}
