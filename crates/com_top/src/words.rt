//! What the words ask for.
ghost use Rattle.std.specs.Prelude.{◌≡◌, map, string_bytes};
ghost use Rattle.com_top.specs.Words.{command_of, of_two, of_word};

use com_gen::number_of;

/// What the words behind the program's name ask for.
#[derive(Debug, Clone, Copy, PartialEq, Eq)]
pub enum Command {
    /// `replay`.
    Replay,
    /// `run`.
    Run,
    /// `check`.
    Check,
    /// `load` and a number from 1 to 1,000,000.
    Load(u32),
    /// `objref`.
    ObjRef,
    /// `migrate`.
    Migrate,
    /// `waits`.
    Waits,
    /// `dispatch`.
    Dispatch,
    /// `points`.
    Points,
    /// Any other words.
    Usage,
}

/// The command that the words ask for.
pub fn command_of(words: &[String]) -> Command
    ensures { result ≡ command_of (map string_bytes words.now) }
{
    match words.len() {
        1 => of_word(words[0].as_str()),
        2 => of_two(words[0].as_str(), words[1].as_str()),
        _ => Command::Usage,
    }
}

// The command of one word. A lone `load` is no command, since its number is missing.
fn of_word(word: &str) -> Command
    ensures { result ≡ of_word word.now }
{
    match word {
        "replay" => Command::Replay,
        "run" => Command::Run,
        "check" => Command::Check,
        "objref" => Command::ObjRef,
        "migrate" => Command::Migrate,
        "waits" => Command::Waits,
        "dispatch" => Command::Dispatch,
        "points" => Command::Points,
        _ => Command::Usage,
    }
}

// The command of two words, which is `load` with a number from 1 to 1,000,000, or none.
fn of_two(word: &str, number: &str) -> Command
    ensures { result ≡ of_two word.now number.now }
{
    if word != "load" {
        return Command::Usage;
    }
    match number_of(number.as_bytes()) {
        Some(number) => Command::Load(number),
        None => Command::Usage,
    }
}
