//! Message filters and their rules.

ghost use Rattle.std.specs.Prelude.{◌≤◌, ◌↔◌, IsTrue, All, length};
ghost use Rattle.com_model.specs.Formed.{IsType, IsAsked, IsRetryAnswer, IsRule, IsFilter};

use com_base::{FILTER_LIMIT, LAST_MS, RULE_LIMIT, Rows};
use com_cause::{NESTED, TOP_LEVEL, TOP_LEVEL_CALL_PENDING};
use com_filter::{Filter, Rule, Verdict};

// Whether a call type is one of the three that are asked about, or any.
fn is_type(call_type: Option<u8>) -> bool
    ensures { IsTrue result ↔ IsType call_type }
{
    match call_type {
        None => true,
        Some(number) => number == TOP_LEVEL || number == NESTED || number == TOP_LEVEL_CALL_PENDING,
    }
}

// Whether a verdict is one that a caller is asked about, or any.
fn is_asked(verdict: Option<Verdict>) -> bool
    ensures { IsTrue result ↔ IsAsked verdict }
{
    !matches!(verdict, Some(Verdict::Handled))
}

// Whether a number may answer a retry.
#[tactic(auto, using(crate::proofs::Retries::answers, crate::proofs::Retries::answer_low, crate::proofs::Retries::answer_high))]
fn is_retry_answer(answer: i64) -> bool
    ensures { IsTrue result ↔ IsRetryAnswer answer }
{
    -1 <= answer && answer <= LAST_MS as i64
}

// Whether the time of a rule is at most `LAST_MS` milliseconds.
fn is_time(ms: u32) -> bool
    ensures { IsTrue result ↔ (ms ≤ LAST_MS) }
{
    ms <= LAST_MS
}

// Whether a rule keeps its ranges.
fn is_rule(rule: &Rule) -> bool
    ensures { IsTrue result ↔ IsRule rule.now }
{
    match *rule {
        Rule::Incoming { call_type, ms, .. } => is_type(call_type) && is_time(ms),
        Rule::Retry {
            verdict,
            ms,
            answer,
        } => is_asked(verdict) && is_time(ms) && is_retry_answer(answer),
        Rule::Pending { ms, answer } => is_time(ms) && answer <= 2,
    }
}

// Whether a filter has at most `RULE_LIMIT` rules, and each of them keeps its ranges.
fn is_filter(filter: &Filter) -> bool
    ensures { IsTrue result ↔ IsFilter filter.now }
{
    filter.rules().iter().all(|rule| is_rule(rule)) && filter.rules().len() <= RULE_LIMIT
}

// Whether there are at most `FILTER_LIMIT` filters, each of at most `RULE_LIMIT` rules that keep their ranges.
pub(crate) fn are_filters(filters: &Rows<Filter>) -> bool
    ensures { IsTrue result ↔ (All IsFilter filters.now × (length filters.now ≤ FILTER_LIMIT)) }
{
    filters.as_slice().iter().all(|filter| is_filter(filter)) && filters.len() <= FILTER_LIMIT
}
