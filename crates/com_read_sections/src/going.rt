//! Lines that go on with the section that is open, as one more method, statement or rule of it.

ghost use Rattle.std.specs.Prelude.{◌≡◌};
ghost use Rattle.com_read_operands.specs.Reading.{Gives};
ghost use Rattle.com_read_sections.specs.Opened.{method_line, program_of, ruled};
ghost use Rattle.com_read_sections.specs.Going.{more_methods, more_statements, more_rules, goes_on};
ghost use Rattle.com_read_lines.specs.Rules.{rule_word_of};

use crate::state::Section;
use com_base::{BODY_LIMIT, ByteList, METHOD_LIMIT, RULE_LIMIT, Rows, SCRIPT_LIMIT};
use com_classes::{Interface, ThreadingModel};
use com_filter::Rule;
use com_read_lines::{Code, method, program_line, rule, rule_word_of};
use com_read_operands::{Fault, ScenarioError, fault, first};
use com_read_statements::{Names, Program};
use com_text::Word;
use std::alloc::Global;

// A `method` line.
#[tactic(auto, unfolding(crate::specs::Opened::method_line))]
fn method_line(
    alloc: Global,
    interfaces: &[ByteList],
    interface: &mut Interface,
    word: &Word,
    line: &[Word],
) -> Result<(), ScenarioError>
    ensures { Gives (λ u. interface.new) result (method_line interfaces.now interface.old word.now line.now) }
{
    if interface.methods.len() >= METHOD_LIMIT {
        return Err(fault(Fault::LIMIT, word));
    }
    let method = method(alloc, interfaces, interface.methods.as_slice(), line)?;
    interface.methods.push(method)?;
    Ok(())
}

// One more method of an interface. Answers whether the line is one.
#[tactic(auto, unfolding(crate::specs::Going::more_methods))]
fn more_methods(
    alloc: Global,
    interfaces: &[ByteList],
    interface: &mut Interface,
    line: &[Word],
) -> Result<bool, ScenarioError>
    ensures { Gives (λ more. (interface.new, more)) result
        (more_methods interfaces.now interface.old line.now) }
{
    let word = first(line)?;
    if word.bytes != b"method".as_slice() {
        return Ok(false);
    }
    method_line(alloc, interfaces, interface, word, line)?;
    Ok(true)
}

// One more statement of a body or a script. Answers whether the line is one: only `end` is none.
#[tactic(auto, unfolding(crate::specs::Going::more_statements))]
fn more_statements(
    alloc: Global,
    program: Program,
    limit: usize,
    names: &Names,
    code: &mut Code,
    line: &[Word],
) -> Result<bool, ScenarioError>
    ensures { Gives (λ more. (code.new, more)) result
        (more_statements program limit names.now code.old line.now) }
{
    let word = first(line)?;
    if word.bytes == b"end".as_slice() {
        return Ok(false);
    }
    program_line(alloc, program, limit, names, code, word, line)?;
    Ok(true)
}

// A line of a filter that does not end it.
fn rule_line(rules: &mut Rows<Rule>, word: &Word, line: &[Word]) -> Result<(), ScenarioError>
    ensures { Gives (λ u. rules.new) result
        (ruled rules.old word.now line.now (rule_word_of word.now.bytes)) }
{
    match rule_word_of(word.bytes) {
        None => Err(fault(Fault::UNEXPECTED, word)),
        Some(keyword) => {
            if rules.len() >= RULE_LIMIT {
                return Err(fault(Fault::LIMIT, word));
            }
            let rule = rule(keyword, line)?;
            rules.push(rule)?;
            Ok(())
        }
    }
}

// One more rule of a filter. Answers whether the line is one: only `end` is none.
#[tactic(auto, unfolding(crate::specs::Going::more_rules))]
fn more_rules(rules: &mut Rows<Rule>, line: &[Word]) -> Result<bool, ScenarioError>
    ensures { Gives (λ more. (rules.new, more)) result (more_rules rules.old line.now) }
{
    let word = first(line)?;
    if word.bytes == b"end".as_slice() {
        return Ok(false);
    }
    rule_line(rules, word, line)?;
    Ok(true)
}

// What a body of a class is.
fn program_of(model: ThreadingModel) -> Program
    ensures { result ≡ program_of model }
{
    match model {
        ThreadingModel::Agile => Program::AgileBody,
        _ => Program::Body,
    }
}

// Goes on with the section that is open, where the line is one more method, statement or rule of it, and
// answers whether it is.
pub(crate) fn goes_on(
    alloc: Global,
    names: &Names,
    section: &mut Section,
    line: &[Word],
) -> Result<bool, ScenarioError>
    ensures { Gives (λ more. (section.new, more)) result (goes_on names.now line.now section.old) }
{
    match section {
        Section::Interface { interface } => {
            more_methods(alloc, names.interfaces.as_slice(), interface, line)
        }
        Section::Body { class, code, .. } => {
            let program = program_of(class.model);
            more_statements(alloc, program, BODY_LIMIT, names, code, line)
        }
        Section::Filter { rules } => more_rules(rules, line),
        Section::Thread { code } => {
            more_statements(alloc, Program::Script, SCRIPT_LIMIT, names, code, line)
        }
        Section::Header { .. } | Section::Top | Section::Class { .. } => Ok(false),
    }
}
