//! Filters, threads and picks as lines.

ghost use Rattle.std.specs.Prelude.{◌≡◌, ◌++◌, ◌∷◌, [], OnOk, All, map, codes};
ghost use Rattle.std.specs.Fmt.{signed_decimal};
ghost use Rattle.com_print.specs.Spelled.{plain, more_text, words_text, line_text, text_of};
ghost use Rattle.com_print_scenario.specs.Printed.{number_word, type_word, verdict_word, refusal_word};
ghost use Rattle.com_print_scenario.specs.Printed.{kept_word, rule_words, rules_lines, filter_words};
ghost use Rattle.com_print_scenario.specs.Printed.{filters_lines, threads_lines, picks_lines};
ghost use Rattle.com_print_scenario.specs.Ranges.{FitsProgram};

use crate::classes::push_program;
use com_base::{ByteList, Memory};
use com_body::Body;
use com_filter::{Filter, Rule, Verdict};
use com_print::operands::{push_decimal, push_signed, push_word};
use com_print::words::push_end;
use com_read_statements::Names;
use itoa::Buffer;

// Appends the word of a verdict.
fn push_verdict(out: &mut ByteList, verdict: Verdict) -> Result<(), Memory>
    ensures { OnOk result (out.new ≡ out.old ++ more_text (verdict_word verdict ∷ [])) }
{
    match verdict {
        Verdict::Handled => push_word(out, b"handled"),
        Verdict::Rejected => push_word(out, b"rejected"),
        Verdict::Later => push_word(out, b"later"),
    }
}

// Appends the call type that an `incoming` rule is for, or `*` where it is for any.
fn push_type(out: &mut ByteList, call_type: Option<u8>) -> Result<(), Memory>
    ensures { OnOk result (out.new ≡ out.old ++ more_text (type_word call_type ∷ [])) }
{
    match call_type {
        None => push_word(out, b"*"),
        Some(number) => push_decimal(out, u64::from(number)),
    }
}

// Appends the verdict that a `retry` rule is for, or `*` where it is for any.
fn push_refusal(out: &mut ByteList, verdict: Option<Verdict>) -> Result<(), Memory>
    ensures { OnOk result (out.new ≡ out.old ++ more_text (refusal_word verdict ∷ [])) }
{
    match verdict {
        None => push_word(out, b"*"),
        Some(verdict) => push_verdict(out, verdict),
    }
}

// Appends the answer of a `pending` rule as a word: 0 is cancel, 1 is wait, and all else discard.
#[tactic(auto, using(crate::proofs::Pieces::kept_other))]
fn push_kept(out: &mut ByteList, answer: u8) -> Result<(), Memory>
    ensures { OnOk result (out.new ≡ out.old ++ more_text (kept_word answer ∷ [])) }
{
    match answer {
        0 => push_word(out, b"cancel"),
        1 => push_word(out, b"wait"),
        _ => push_word(out, b"discard"),
    }
}

// Appends the words of an `incoming` rule.
fn push_incoming(
    out: &mut ByteList,
    call_type: Option<u8>,
    ms: u32,
    verdict: Verdict,
) -> Result<(), Memory>
    ensures { OnOk result (out.new ≡ out.old ++ words_text (plain (codes "incoming") ∷ type_word call_type
        ∷ number_word ms ∷ verdict_word verdict ∷ [])) }
{
    out.push_all(b"incoming")?;
    push_type(out, call_type)?;
    push_decimal(out, u64::from(ms))?;
    push_verdict(out, verdict)
}

// Appends the words of a `retry` rule. Its answer may be below 0.
fn push_retry(
    out: &mut ByteList,
    verdict: Option<Verdict>,
    ms: u32,
    answer: i64,
) -> Result<(), Memory>
    ensures { OnOk result (out.new ≡ out.old ++ words_text (plain (codes "retry") ∷ refusal_word verdict
        ∷ number_word ms ∷ plain (signed_decimal answer) ∷ [])) }
{
    out.push_all(b"retry")?;
    push_refusal(out, verdict)?;
    push_decimal(out, u64::from(ms))?;
    push_signed(out, answer)
}

// Appends the words of a `pending` rule.
fn push_pending(out: &mut ByteList, ms: u32, answer: u8) -> Result<(), Memory>
    ensures { OnOk result (out.new ≡ out.old
        ++ words_text (plain (codes "pending") ∷ number_word ms ∷ kept_word answer ∷ [])) }
{
    out.push_all(b"pending")?;
    push_decimal(out, u64::from(ms))?;
    push_kept(out, answer)
}

// Appends a rule's words, without the end of the line.
fn push_rule_words(out: &mut ByteList, rule: &Rule) -> Result<(), Memory>
    ensures { OnOk result (out.new ≡ out.old ++ words_text (rule_words rule.now)) }
{
    match rule {
        Rule::Incoming {
            call_type,
            ms,
            verdict,
        } => push_incoming(out, *call_type, *ms, *verdict),
        Rule::Retry {
            verdict,
            ms,
            answer,
        } => push_retry(out, *verdict, *ms, *answer),
        Rule::Pending { ms, answer } => push_pending(out, *ms, *answer),
    }
}

// Appends a rule's line.
fn push_rule(out: &mut ByteList, rule: &Rule) -> Result<(), Memory>
    ensures { OnOk result (out.new ≡ out.old ++ line_text (rule_words rule.now)) }
{
    push_rule_words(out, rule)?;
    push_end(out)
}

// Appends rules, and the line that ends them.
#[tactic(auto, using(crate::proofs::Pieces::rule_first))]
fn push_rules(out: &mut ByteList, rules: &[Rule]) -> Result<(), Memory>
    ensures { OnOk result (out.new ≡ out.old ++ text_of (rules_lines rules.now)) }
{
    let mut rest = rules;
    'rules: while let Some((rule, others)) = rest.split_first() {
        push_rule(out, rule)?;
        rest = others;
    }
    out.push_all(b"end\n")
}

// Appends the line that opens a filter and names it by its number.
fn push_filter_head(out: &mut ByteList, number: usize) -> Result<(), Memory>
    ensures { OnOk result (out.new ≡ out.old ++ line_text (filter_words number)) }
{
    let mut digits = Buffer::new();
    out.push_all(b"filter F")?;
    out.push_all(digits.format(number).as_bytes())?;
    push_end(out)
}

// Appends filters, named `F1`, `F2` and on.
#[tactic(auto, using(crate::proofs::Pieces::filter_first, crate::proofs::Pieces::filters_all))]
pub(crate) fn push_filters(out: &mut ByteList, filters: &[Filter]) -> Result<(), Memory>
    ensures { OnOk result (out.new ≡ out.old ++ text_of (filters_lines 1 filters.now)) }
{
    for index in 0..filters.len() {
        push_filter_head(out, index + 1)?;
        push_rules(out, filters[index].rules())?;
    }
    Ok(())
}

// Appends the threads' scripts.
#[tactic(auto, using(crate::proofs::Pieces::thread_first, crate::proofs::Pieces::threads_fit))]
pub(crate) fn push_threads(
    out: &mut ByteList,
    names: &Names,
    threads: &[Body],
) -> Result<(), Memory>
    ensures ok { OnOk result (out.new ≡ out.old ++ text_of (threads_lines names.now threads.now)) }
    ensures fits { OnOk result (All FitsProgram threads.now) }
{
    let mut rest = threads;
    'threads: while let Some((script, others)) = rest.split_first() {
        out.push_all(b"thread\n")?;
        push_program(out, names, script.statements())?;
        rest = others;
    }
    Ok(())
}

// Appends numbers, with a space before each.
#[tactic(auto, using(crate::proofs::Pieces::pick_first))]
fn push_numbers(out: &mut ByteList, numbers: &[u32]) -> Result<(), Memory>
    ensures { OnOk result (out.new ≡ out.old ++ more_text (map number_word numbers.now)) }
{
    let mut rest = numbers;
    'numbers: while let Some((number, others)) = rest.split_first() {
        push_decimal(out, u64::from(*number))?;
        rest = others;
    }
    Ok(())
}

// Appends all picks in one line, and nothing where there are none.
#[tactic(auto, using(crate::proofs::Pieces::picks_behind))]
pub(crate) fn push_picks(out: &mut ByteList, picks: &[u32]) -> Result<(), Memory>
    ensures { OnOk result (out.new ≡ out.old ++ text_of (picks_lines picks.now)) }
{
    if picks.is_empty() {
        return Ok(());
    }
    out.push_all(b"picks")?;
    push_numbers(out, picks)?;
    push_end(out)
}
