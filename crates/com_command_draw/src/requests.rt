//! What the words ask for.
ghost use Rattle.std.specs.Prelude.{◌≡◌, map, string_bytes};
ghost use Rattle.com_command_draw.specs.Words.{of_word, request_of};

/// What the words behind the program's name ask for.
#[derive(Debug, Clone, Copy, PartialEq, Eq)]
pub enum Request {
    /// `replay`: the page of a scenario's one history.
    Replay,
    /// `points`: the same of a scenario with event sources, with who got each event.
    Points,
    /// `trace`: the page of the history that a trace is.
    Trace,
    /// Any other words.
    Usage,
}

/// What the words ask for.
pub fn request_of(words: &[String]) -> Request
    ensures { result ≡ request_of (map string_bytes words.now) }
{
    match words.len() {
        1 => of_word(words[0].as_str()),
        _ => Request::Usage,
    }
}

// What one word asks for. Any word that is no command asks for the usage.
fn of_word(word: &str) -> Request
    ensures { result ≡ of_word word.now }
{
    match word {
        "replay" => Request::Replay,
        "points" => Request::Points,
        "trace" => Request::Trace,
        _ => Request::Usage,
    }
}
