//! The lane that a line names.
ghost use Rattle.std.specs.Prelude.{◌≡◌, ◌≤◌, ◌^◌, Some, None, IfSome, MatchOption, not, position};
ghost use Rattle.std.specs.Char.{is_ascii_digit};
ghost use Rattle.com_check.specs.Fronts.{front_length, named, value_of, IsNoLane};

// How many digits stand at the front of a text, where there is one and something stands behind them.
fn front_length(text: &[u8]) -> Option<usize>
    ensures { result ≡ front_length text.now }
{
    match first_other(text) {
        Some(count) => { if count == 0 { None } else { Some(count) } }
        None => None,
    }
}

// Where the first byte stands that is no digit.
fn first_other(text: &[u8]) -> Option<usize>
    ensures { result ≡ position (λ b. not (is_ascii_digit b)) text.now }
{
    text.iter().position(|byte| !byte.is_ascii_digit())
}

// The number that digits spell, if a number of 32 bits holds it.
fn value_of(digits: &[u8]) -> Option<u32>
    ensures some { IfSome result (λ n. n ≡ value_of digits.now) }
    ensures none { result ≡ None → 2 ^ 32 ≤ value_of digits.now }
{
    let mut value = 0u64;
    for digit in digits {
        value = value * 10 + digit.saturating_sub(48) as u64;
        if value > 0xFFFF_FFFF {
            return None;
        }
    }
    Some(value as u32)
}

/// The lane that a line names, where its front is a decimal number, a space, `L`, a lane's number and a
/// space. Leading zeros are taken. A number that 32 bits do not hold is that of no lane.
pub fn lane_of(line: &[u8]) -> Option<u32>
    ensures { MatchOption result (IsNoLane (named line.now)) (λ lane. named line.now ≡ Some lane) }
{
    let Some(place) = front_length(line) else {
        return None;
    };
    let rest = &line[place..];
    if !rest.starts_with(b" L") {
        return None;
    }
    let lane = &rest[2..];
    let Some(count) = front_length(lane) else {
        return None;
    };
    if lane[count] != 32 {
        return None;
    }
    value_of(&lane[..count])
}
