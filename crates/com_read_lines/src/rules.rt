//! One rule of a filter, from its line.

ghost use Rattle.std.specs.Prelude.{◌≡◌};
ghost use Rattle.com_read_operands.specs.Reading.{Gives};
ghost use Rattle.com_read_lines.specs.Rules.{call_type_at, verdict_at, refusal_at, answer_at, kept_at};
ghost use Rattle.com_read_lines.specs.Rules.{rule_word_of, rule_of};

use com_base::LAST_MS;
use com_filter::{Rule, Verdict};
use com_read_operands::{Fault, ScenarioError, end, fault, number, signed_of, word};
use com_text::Word;

/// The word that begins a rule.
#[derive(Clone, Copy, Debug, PartialEq, Eq)]
pub enum RuleWord {
    /// `incoming`: what is answered to a call that comes in.
    Incoming,
    /// `retry`: what is done with a call that was refused.
    Retry,
    /// `pending`: what is done with a message that comes while a call waits.
    Pending,
}

/// The rule that a word begins. `None` for every other word.
pub fn rule_word_of(bytes: &[u8]) -> Option<RuleWord>
    ensures { result ≡ rule_word_of bytes.now }
{
    if bytes == b"incoming".as_slice() {
        Some(RuleWord::Incoming)
    } else if bytes == b"retry".as_slice() {
        Some(RuleWord::Retry)
    } else if bytes == b"pending".as_slice() {
        Some(RuleWord::Pending)
    } else {
        None
    }
}

// A call type: `1`, `2`, `4`, or `*` for any.
#[tactic(auto, unfolding(crate::specs::Rules::call_type_at))]
fn call_type(line: &[Word], index: usize) -> Result<Option<u8>, ScenarioError>
    ensures { Gives (λ t. t) result (call_type_at line.now index) }
{
    let word = word(line, index)?;
    if word.bytes == b"1".as_slice() {
        Ok(Some(1))
    } else if word.bytes == b"2".as_slice() {
        Ok(Some(2))
    } else if word.bytes == b"4".as_slice() {
        Ok(Some(4))
    } else if word.bytes == b"*".as_slice() {
        Ok(None)
    } else {
        Err(fault(Fault::UNEXPECTED, word))
    }
}

// The answer to an incoming call.
#[tactic(auto, unfolding(crate::specs::Rules::verdict_at))]
fn verdict(line: &[Word], index: usize) -> Result<Verdict, ScenarioError>
    ensures { Gives (λ v. v) result (verdict_at line.now index) }
{
    let word = word(line, index)?;
    if word.bytes == b"handled".as_slice() {
        Ok(Verdict::Handled)
    } else if word.bytes == b"rejected".as_slice() {
        Ok(Verdict::Rejected)
    } else if word.bytes == b"later".as_slice() {
        Ok(Verdict::Later)
    } else {
        Err(fault(Fault::UNEXPECTED, word))
    }
}

// The verdict that a caller got, or `*` for either.
#[tactic(auto, unfolding(crate::specs::Rules::refusal_at))]
fn refusal(line: &[Word], index: usize) -> Result<Option<Verdict>, ScenarioError>
    ensures { Gives (λ v. v) result (refusal_at line.now index) }
{
    let word = word(line, index)?;
    if word.bytes == b"rejected".as_slice() {
        Ok(Some(Verdict::Rejected))
    } else if word.bytes == b"later".as_slice() {
        Ok(Some(Verdict::Later))
    } else if word.bytes == b"*".as_slice() {
        Ok(None)
    } else {
        Err(fault(Fault::UNEXPECTED, word))
    }
}

// The answer to a retry: -1 to `LAST_MS`.
#[tactic(auto, unfolding(crate::specs::Rules::answer_at))]
fn answer(line: &[Word], index: usize) -> Result<i64, ScenarioError>
    ensures { Gives (λ n. n) result (answer_at line.now index) }
{
    let word = word(line, index)?;
    match signed_of(word.bytes) {
        Some(number) if -1 <= number && number <= LAST_MS as i64 => Ok(number),
        _ => Err(fault(Fault::NUMBER, word)),
    }
}

// The answer to a waiting caller: `cancel` 0, `wait` 1, `discard` 2.
#[tactic(auto, unfolding(crate::specs::Rules::kept_at))]
fn pending_answer(line: &[Word], index: usize) -> Result<u8, ScenarioError>
    ensures { Gives (λ n. n) result (kept_at line.now index) }
{
    let word = word(line, index)?;
    if word.bytes == b"cancel".as_slice() {
        Ok(0)
    } else if word.bytes == b"wait".as_slice() {
        Ok(1)
    } else if word.bytes == b"discard".as_slice() {
        Ok(2)
    } else {
        Err(fault(Fault::UNEXPECTED, word))
    }
}

/// The rule that a line spells behind its first word, `keyword`: a call type, milliseconds and a verdict; a
/// verdict, milliseconds and an answer; or milliseconds and an answer. A number out of its range is fault
/// `NUMBER`, another word that cannot stand where it does fault `UNEXPECTED`, and behind the last the line
/// ends.
#[tactic(auto, unfolding(crate::specs::Rules::rule_of))]
pub fn rule(keyword: RuleWord, line: &[Word]) -> Result<Rule, ScenarioError>
    ensures { Gives (λ r. r) result (rule_of keyword line.now) }
{
    match keyword {
        RuleWord::Incoming => {
            let call_type = call_type(line, 1)?;
            let ms = number(line, 2, 0, LAST_MS as u64)? as u32;
            let verdict = verdict(line, 3)?;
            end(line, 4)?;
            Ok(Rule::Incoming {
                call_type,
                ms,
                verdict,
            })
        }
        RuleWord::Retry => {
            let verdict = refusal(line, 1)?;
            let ms = number(line, 2, 0, LAST_MS as u64)? as u32;
            let answer = answer(line, 3)?;
            end(line, 4)?;
            Ok(Rule::Retry {
                verdict,
                ms,
                answer,
            })
        }
        RuleWord::Pending => {
            let ms = number(line, 1, 0, LAST_MS as u64)? as u32;
            let answer = pending_answer(line, 2)?;
            end(line, 3)?;
            Ok(Rule::Pending { ms, answer })
        }
    }
}
