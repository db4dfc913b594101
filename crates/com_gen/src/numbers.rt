//! The numbers of the texts.
ghost use Rattle.std.specs.Prelude.{◌≡◌, ◌≤◌, IfSome};
ghost use Rattle.com_gen.specs.Numbers.{number_of};

// No text has a greater number.
const GREATEST: u32 = 1_000_000;

// No word of a number has more digits.
const LONGEST: usize = 7;

/// The number of a text that a word spells: one to seven decimal digits with a value of 1 to 1,000,000.
/// Leading zeros are taken.
#[tactic(auto, unfolding(crate::specs::Numbers::number_of))]
pub fn number_of(word: &[u8]) -> Option<u32>
    ensures value { result ≡ number_of word.now }
    ensures low { IfSome result (λ number. 1 ≤ number) }
    ensures high { IfSome result (λ number. number ≤ GREATEST) }
{
    if word.is_empty() || word.len() > LONGEST {
        return None;
    }
    let mut value = 0u32;
    'digits: for digit in word {
        if !digit.is_ascii_digit() {
            return None;
        }
        value = value * 10 + (*digit - 48) as u32;
        if value > GREATEST {
            return None;
        }
    }
    if value == 0 { None } else { Some(value) }
}
