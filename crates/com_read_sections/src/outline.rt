//! A text's outline: all that its lines declare.

ghost use Rattle.std.specs.Prelude.{◌≡◌, IfOk};
ghost use Rattle.com_text.specs.Scanning.{lines_of};
ghost use Rattle.com_read_operands.specs.Reading.{Gives};
ghost use Rattle.com_read_sections.specs.Outlines.{finish, outlined, names_of, iids_of, taken_iids, begun};
ghost use Rattle.com_read_sections.specs.Outlines.{read};

use crate::open::{close_interface, step};
use crate::state::{Section, State};
use com_base::{
    ByteList, Guid, IID_ICLASS_FACTORY, IID_IGLOBAL_INTERFACE_TABLE, IID_IMESSAGE_FILTER, Rows,
};
use com_body::Body;
use com_classes::{Class, Interface};
use com_filter::Filter;
use com_read_lines::FIRST;
use com_read_operands::{Fault, ScenarioError};
use com_read_statements::Names;
use com_text::{TEXT_LIMIT, line_at};
use std::alloc::{AllocError, Global};
use std::mem;

/// All that a text's lines declare, each list in order of declaration.
#[derive(Drop)]
pub struct Outline {
    /// The version that the header names, 1 or 2.
    pub version: u8,
    /// The lanes of the pool, 1 without a line.
    pub pool: u32,
    /// The interfaces, the built-in ones first.
    pub interfaces: Rows<Interface>,
    /// The classes and natives.
    pub classes: Rows<Class>,
    /// The filters.
    pub filters: Rows<Filter>,
    /// The scripts.
    pub threads: Rows<Body>,
    /// The lanes that the schedule tries first.
    pub picks: Rows<u32>,
}

/// What was read at the text's end, which stands in a line at a column. Above a header it is fault `HEADER`
/// at the text's first position, and inside of a section other than an interface fault `UNENDED` at the
/// end.
#[tactic(auto, unfolding(crate::specs::Outlines::finish))]
pub fn finish(mut st: State, line: u32, column: u32) -> Result<Outline, ScenarioError>
    ensures { Gives (λ o. o) result (finish st line column) }
{
    close_last(&mut st, line, column)?;
    Ok(outline_outside(st))
}

// Closes what is open at the text's end. It stands apart, so that its proof drops a section and no state, and
// that of `finish` a state once.
#[tactic(auto, unfolding(crate::specs::Outlines::finish))]
fn close_last(st: &mut State, line: u32, column: u32) -> Result<(), ScenarioError>
    ensures { Gives (λ u. outlined st.new) result (finish st.old line column) }
{
    match mem::replace(&mut st.section, Section::Top) {
        Section::Header { .. } => Err(FIRST.error()),
        Section::Top => Ok(()),
        Section::Interface { interface } => Ok(close_interface(st, interface)?),
        _ => Err(ScenarioError::Fault {
            number: Fault::UNENDED,
            line,
            column,
        }),
    }
}

// What was read, outside of sections.
fn outline_outside(st: State) -> Outline
    ensures { result ≡ outlined st }
{
    let State {
        version,
        pool,
        names,
        iids: _,
        clsids: _,
        classes,
        filters,
        threads,
        picks,
        section: _,
    } = st;
    let Names {
        classes: _,
        interfaces: _,
        filters: _,
        tables,
    } = names;
    Outline {
        version,
        pool: pool.unwrap_or(1),
        interfaces: tables,
        classes,
        filters,
        threads,
        picks,
    }
}

// The names of interfaces.
fn names_of(alloc: Global, tables: &[Interface]) -> Result<Rows<ByteList>, AllocError>
    ensures { IfOk result (λ r. r ≡ names_of tables.now) }
{
    let mut names = Vec::new(alloc);
    for table in tables {
        names.push(ByteList::from_slice(alloc, table.name.as_slice())?)?;
    }
    Ok(Rows::from_vec(names))
}

// The IIDs of interfaces.
fn iids_of(alloc: Global, tables: &[Interface]) -> Result<Vec<Guid>, AllocError>
    ensures { IfOk result (λ v. v.items ≡ iids_of tables.now) }
{
    let mut iids = Vec::new(alloc);
    for table in tables {
        iids.push(table.iid)?;
    }
    Ok(iids)
}

// The IIDs that no text may declare: those of the built-in interfaces, and those of three documented
// interfaces of the runtime.
fn taken_iids(alloc: Global, tables: &[Interface]) -> Result<Rows<Guid>, AllocError>
    ensures { IfOk result (λ r. r ≡ taken_iids tables.now) }
{
    let mut iids = iids_of(alloc, tables)?;
    iids.push(IID_ICLASS_FACTORY)?;
    iids.push(IID_IMESSAGE_FILTER)?;
    iids.push(IID_IGLOBAL_INTERFACE_TABLE)?;
    Ok(Rows::from_vec(iids))
}

/// What was read above the first line: the interfaces that are declared from the start.
pub fn start(alloc: Global, built_in: Rows<Interface>) -> Result<State, AllocError>
    ensures { IfOk result (λ st. st ≡ begun built_in) }
{
    let interfaces = names_of(alloc, built_in.as_slice())?;
    let iids = taken_iids(alloc, built_in.as_slice())?;
    Ok(State {
        version: 0,
        pool: None,
        names: Names {
            classes: Rows::new(alloc),
            interfaces,
            filters: Rows::new(alloc),
            tables: built_in,
        },
        iids,
        clsids: Rows::new(alloc),
        classes: Rows::new(alloc),
        filters: Rows::new(alloc),
        threads: Rows::new(alloc),
        picks: Rows::new(alloc),
        section: Section::Header { pending: None },
    })
}

/// What a text's lines declare, beside the interfaces that are declared from the start, or the
/// text's first fault by position. A text of nearly 2^32 bytes or more finds no memory.
#[tactic(auto, unfolding(crate::specs::Outlines::read, com_text::specs::Scanning::lines_of))]
pub fn outline_of(
    alloc: Global,
    built_in: Rows<Interface>,
    text: &[u8],
) -> Result<Outline, ScenarioError>
    ensures { Gives (λ o. o) result (read (begun built_in) (lines_of text.now)) }
{
    if text.len() >= TEXT_LIMIT {
        return Err(ScenarioError::Memory);
    }
    let mut st = start(alloc, built_in)?;
    let mut words = Vec::new(alloc);
    let mut line = 1;
    let mut at = 0;
    'lines: loop {
        let end = line_at(text, line, at, &mut words)?;
        step(alloc, &mut st, &words)?;
        if end.last {
            return finish(st, line, end.column);
        }
        line += 1;
        at = end.at + 1;
    }
}
