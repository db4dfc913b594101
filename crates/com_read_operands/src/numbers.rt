//! Numbers in decimal digits.

ghost use Rattle.std.specs.Prelude.{◌≡◌};
ghost use Rattle.com_read_operands.specs.Numbers.{number_of, negative, signed_of};

// 2^63.
const HALF: u64 = 0x8000_0000_0000_0000;

/// The number of 64 bits that decimal digits spell. Leading zeros are taken, a sign is not.
#[tactic(auto, unfolding(crate::specs::Numbers::number_of))]
pub fn number_of(bytes: &[u8]) -> Option<u64>
    ensures { result ≡ number_of bytes.now }
{
    if bytes.is_empty() {
        return None;
    }
    let mut number: u64 = 0;
    for byte in bytes {
        if !byte.is_ascii_digit() {
            return None;
        }
        number = number
            .checked_mul(10)?
            .checked_add(u64::from(*byte - b'0'))?;
    }
    Some(number)
}

// A number with a `-` before it.
fn negative(number: u64) -> Option<i64>
    ensures { result ≡ negative number }
{
    if number == 0 {
        Some(0)
    } else if number <= HALF {
        Some(-((number - 1) as i64) - 1)
    } else {
        None
    }
}

/// The whole number of 64 bits that decimal digits spell, with `-` before them or not.
#[tactic(auto, unfolding(crate::specs::Numbers::signed_of))]
pub fn signed_of(bytes: &[u8]) -> Option<i64>
    ensures { result ≡ signed_of bytes.now }
{
    match bytes {
        [b'-', rest @ ..] => negative(number_of(rest)?),
        _ => {
            let number = number_of(bytes)?;
            if number < HALF {
                Some(number as i64)
            } else {
                None
            }
        }
    }
}
