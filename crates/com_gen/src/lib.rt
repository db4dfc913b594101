//! Scenarios to measure with: for each number one text, the same at each run.
#![tactic(auto)]

ghost use Rattle.std.specs.Prelude.{◌≡◌, ◌++◌, IfOk, OnOk, decimal};
ghost use Rattle.com_gen.specs.Loads.{word, behind, seeded, head_text, load_text, apartment_text};
ghost use Rattle.com_gen.specs.Loads.{round_text, behind_round, rounds_text, behind_rounds};
ghost use Rattle.com_gen.specs.Loads.{script_text, behind_script, scripts_text};

mod numbers;

use com_base::ByteList;
pub use com_base::Memory;
use itoa::Buffer;
pub use numbers::number_of;
use rand_core::SeedableRng;
use rand_core::utils::NextWord;
use rand_pcg::Lcg64Xsh32;
use std::alloc::Global;

// How many scripts a text has.
const SCRIPTS: u32 = 8;

/// How many objects a script makes, calls and releases, one after another.
pub const ROUNDS: u32 = 400;

// Room for a text in bytes, more than one takes; nothing rests on it but speed.
const ROOM: usize = 400_000;

/// The text of a number's scenario: five classes, one of each model, and eight threads. Each thread goes into
/// an apartment, and then 400 times makes an object, calls it and releases it; kinds of apartments, classes
/// and arguments are drawn.
///
/// The only error is want of memory.
pub fn generate(alloc: Global, number: u32) -> Result<ByteList, Memory>
    ensures { IfOk result (λ text. text ≡ load_text number) }
{
    let mut words = generator_of(number);
    let mut text = head(alloc)?;
    text.reserve(ROOM)?;
    push_scripts(&mut words, &mut text)?;
    Ok(text)
}

// The generator of a number's words.
#[tactic(auto, unfolding(crate::specs::Loads::seeded))]
fn generator_of(number: u32) -> Lcg64Xsh32
    ensures { result ≡ seeded number }
{
    Lcg64Xsh32::seed_from_u64(number as u64)
}

// Draws a word.
#[tactic(auto, unfolding(crate::specs::Loads::word, crate::specs::Loads::behind))]
fn draw(words: &mut Lcg64Xsh32) -> u32
    ensures word { result ≡ word words.old }
    ensures behind { words.new ≡ behind words.old }
{
    words.next_word()
}

// The header, the pool and the classes.
fn head(alloc: Global) -> Result<ByteList, Memory>
    ensures { IfOk result (λ text. text ≡ head_text) }
{
    let mut text = ByteList::new(alloc);
    text.push_all(b"scenario 1\npool 4\n")?;
    text.push_all(b"native N1 {5C0B00D1-0000-4000-8000-000000000001} none counter\n")?;
    text.push_all(b"native N2 {5C0B00D2-0000-4000-8000-000000000001} Apartment counter\n")?;
    text.push_all(b"native N3 {5C0B00D3-0000-4000-8000-000000000001} Free counter\n")?;
    text.push_all(b"native N4 {5C0B00D4-0000-4000-8000-000000000001} Both counter\n")?;
    text.push_all(b"native N5 {5C0B00D5-0000-4000-8000-000000000001} Neutral counter\n")?;
    Ok(text)
}

// Appends the scripts.
fn push_scripts(words: &mut Lcg64Xsh32, text: &mut ByteList) -> Result<(), Memory>
    ensures { OnOk result (text.new ≡ text.old ++ scripts_text SCRIPTS words.old) }
{
    'scripts: for before in 0..SCRIPTS {
        push_script(words, text)?;
    }
    Ok(())
}

// Appends a script.
fn push_script(words: &mut Lcg64Xsh32, text: &mut ByteList) -> Result<(), Memory>
    ensures text { OnOk result (text.new ≡ text.old ++ script_text words.old) }
    ensures behind { OnOk result (words.new ≡ behind_script words.old) }
{
    let word = draw(words);
    push_opening(word, text)?;
    push_rounds(words, text)?;
    text.push_all(b"end\n")
}

// Appends the first two lines of a script.
fn push_opening(word: u32, text: &mut ByteList) -> Result<(), Memory>
    ensures { OnOk result (text.new ≡ text.old ++ apartment_text word) }
{
    if word % 2 == 1 {
        text.push_all(b"thread\ninit sta\n")
    } else {
        text.push_all(b"thread\ninit mta\n")
    }
}

// Appends the rounds of a script.
fn push_rounds(words: &mut Lcg64Xsh32, text: &mut ByteList) -> Result<(), Memory>
    ensures text { OnOk result (text.new ≡ text.old ++ rounds_text ROUNDS words.old) }
    ensures behind { OnOk result (words.new ≡ behind_rounds ROUNDS words.old) }
{
    'rounds: for before in 0..ROUNDS {
        push_round(words, text)?;
    }
    Ok(())
}

// Appends a round: an object is made, called and released.
fn push_round(words: &mut Lcg64Xsh32, text: &mut ByteList) -> Result<(), Memory>
    ensures text { OnOk result (text.new ≡ text.old ++ round_text words.old) }
    ensures behind { words.new ≡ behind_round words.old }
{
    let class = draw(words);
    let argument = draw(words);
    text.push_all(b"create s0 N")?;
    push_number(1 + class % 5, text)?;
    text.push_all(b" ICounter\ncall s0 ICounter.add ")?;
    push_number(argument % 1000, text)?;
    text.push_all(b" -> r1\nrelease s0\n")
}

// Appends a number in decimal digits.
fn push_number(number: u32, text: &mut ByteList) -> Result<(), Memory>
    ensures { OnOk result (text.new ≡ text.old ++ decimal number) }
{
    let mut digits = Buffer::new();
    text.push_all(digits.format(number).as_bytes())
}
