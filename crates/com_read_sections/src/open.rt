//! Lines inside of sections.

ghost use Rattle.std.specs.Prelude.{◌≡◌, OnOk};
ghost use Rattle.com_read_operands.specs.Reading.{Gives};
ghost use Rattle.com_read_sections.specs.Opened.{interface_closed, has_body, body_head};
ghost use Rattle.com_read_sections.specs.Opened.{class_ended, inner_class};
ghost use Rattle.com_read_sections.specs.Opened.{body_ended, filter_ended, thread_ended, step};
ghost use Rattle.com_read_sections.specs.Beginning.{top_line};
ghost use Rattle.com_read_sections.specs.Going.{outside, turns, lined};

use crate::begin::top_line;
use crate::going::goes_on;
use crate::header::header_line;
use crate::state::{Section, State};
use com_base::{BODY_LIMIT, Rows, SCRIPT_LIMIT};
use com_classes::{Class, Interface, MethodBody};
use com_filter::{Filter, Rule};
use com_read_lines::Code;
use com_read_operands::{Fault, ScenarioError, end, fault, first, word};
use com_read_statements::{MethodNumber, method_at};
use com_text::Word;
use std::alloc::{AllocError, Global};
use std::mem;

// Closes an interface.
pub(crate) fn close_interface(st: &mut State, interface: Interface) -> Result<(), AllocError>
    ensures { OnOk result (st.new ≡ interface_closed st.old interface) }
{
    st.names.tables.push(interface)?;
    st.enter(Section::Top);
    Ok(())
}

// Whether a class has a body for a method.
fn has_body(bodies: &[MethodBody], head: MethodNumber) -> bool
    ensures { result ≡ has_body bodies.now head }
{
    for body in bodies {
        if body.iface == head.iface && body.method == head.method {
            return true;
        }
    }
    false
}

// A `body` line.
#[tactic(auto, unfolding(crate::specs::Opened::body_head))]
fn body_head(
    alloc: Global,
    st: &mut State,
    class: Class,
    line: &[Word],
) -> Result<(), ScenarioError>
    ensures { Gives (λ u. st.new) result (body_head st.old class line.now) }
{
    let head = method_at(&st.names, line, 1)?;
    if has_body(class.bodies.as_slice(), head) {
        return Err(fault(Fault::REPEATED, word(line, 1)?));
    }
    end(line, 2)?;
    st.enter(Section::Body {
        class,
        head,
        code: Code::new(alloc),
    });
    Ok(())
}

// The line that ends a class.
fn class_ended(st: &mut State, class: Class, line: &[Word]) -> Result<(), ScenarioError>
    ensures { Gives (λ u. st.new) result (class_ended st.old class line.now) }
{
    end(line, 1)?;
    st.classes.push(class)?;
    st.enter(Section::Top);
    Ok(())
}

// A line of a class between its bodies.
#[tactic(auto, unfolding(crate::specs::Opened::inner_class))]
fn inner_class(
    alloc: Global,
    st: &mut State,
    class: Class,
    line: &[Word],
) -> Result<(), ScenarioError>
    ensures { Gives (λ u. st.new) result (inner_class st.old class line.now) }
{
    let word = first(line)?;
    if word.bytes == b"body".as_slice() {
        return body_head(alloc, st, class, line);
    }
    if word.bytes == b"end".as_slice() {
        return class_ended(st, class, line);
    }
    Err(fault(Fault::UNEXPECTED, word))
}

// The line that ends a body.
fn body_ended(
    st: &mut State,
    mut class: Class,
    head: MethodNumber,
    code: Code,
    line: &[Word],
) -> Result<(), ScenarioError>
    ensures { Gives (λ u. st.new) result (body_ended st.old class head code line.now) }
{
    let body = code.check(BODY_LIMIT as u32)?;
    end(line, 1)?;
    class.bodies.push(MethodBody {
        iface: head.iface,
        method: head.method,
        body,
    })?;
    st.enter(Section::Class { class });
    Ok(())
}

// The line that ends a script.
fn thread_ended(st: &mut State, code: Code, line: &[Word]) -> Result<(), ScenarioError>
    ensures { Gives (λ u. st.new) result (thread_ended st.old code line.now) }
{
    let body = code.check(SCRIPT_LIMIT as u32)?;
    end(line, 1)?;
    st.threads.push(body)?;
    st.enter(Section::Top);
    Ok(())
}

// The line that ends a filter.
fn filter_ended(st: &mut State, rules: Rows<Rule>, line: &[Word]) -> Result<(), ScenarioError>
    ensures { Gives (λ u. st.new) result (filter_ended st.old rules line.now) }
{
    end(line, 1)?;
    st.filters.push(Filter::new(rules.into_vec()))?;
    st.enter(Section::Top);
    Ok(())
}

// The first line behind an interface.
fn behind_interface(
    alloc: Global,
    st: &mut State,
    interface: Interface,
    line: &[Word],
) -> Result<(), ScenarioError>
    ensures { Gives (λ u. st.new) result (top_line (interface_closed st.old interface) line.now) }
{
    close_interface(st, interface)?;
    top_line(alloc, st, line)
}

// A line that opens or ends a section, or stands outside of sections. What was open is moved only here, so
// that a statement's line moves nothing.
#[inline(never)]
fn turns(alloc: Global, st: &mut State, line: &[Word]) -> Result<(), ScenarioError>
    ensures { Gives (λ u. st.new) result (turns (outside st.old) line.now st.old.section) }
{
    match mem::replace(&mut st.section, Section::Top) {
        Section::Header { pending } => header_line(st, pending, line),
        Section::Top => top_line(alloc, st, line),
        Section::Interface { interface } => behind_interface(alloc, st, interface, line),
        Section::Class { class } => inner_class(alloc, st, class, line),
        Section::Body { class, head, code } => body_ended(st, class, head, code, line),
        Section::Filter { rules } => filter_ended(st, rules, line),
        Section::Thread { code } => thread_ended(st, code, line),
    }
}

// A line with words.
#[tactic(auto, unfolding(crate::specs::Going::lined))]
fn take_line(alloc: Global, st: &mut State, line: &[Word]) -> Result<(), ScenarioError>
    ensures { Gives (λ u. st.new) result (lined st.old line.now) }
{
    if goes_on(alloc, &st.names, &mut st.section, line)? {
        return Ok(());
    }
    turns(alloc, st, line)
}

/// What a line makes of what was read so far, or the first fault of its words. A line without words is passed
/// over. After an error what was read is not to be used.
#[tactic(auto, unfolding(crate::specs::Opened::step), using(crate::proofs::Sections::lined_is))]
pub fn step(alloc: Global, st: &mut State, line: &[Word]) -> Result<(), ScenarioError>
    ensures { Gives (λ u. st.new) result (step st.old line.now) }
{
    if line.is_empty() {
        return Ok(());
    }
    take_line(alloc, st, line)
}
