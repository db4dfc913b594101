//! The shape of all commands: a command reads its input within a limit, makes of it what its reader says, and
//! answers that by an exit status and a text. Each status has its cause.
//!
//! How a command is written upon this crate:
//!
//! 1. A unit struct names the command, and its `InputReader` reads a text: `Read` is what a text spells,
//!    `LIMIT` the most bytes of an input, `too_long` and `reading` say which texts are too long and what the
//!    others spell, or their first fault, and `sound` what is known of each thing that was read, as that a
//!    scenario is formed. `input_of too_long reading` is then what an input of given bytes is. For a plain
//!    limit `longer` is `long_text` of `specs/Lengths`. `first_fault` and `read_as` make an input of what a
//!    reader of texts answered; `long_input`, `given_input` and `given_sound` of `proofs/Asking` answer the
//!    clauses of `read`.
//! 2. A relation `fits` in `specs/` says which status and text answer what was read. That these statuses are
//!    those of whole texts, `concludes`, is a lemma there: `end_concludes` for the end of a history, and else
//!    `tt` at each status.
//! 3. A command that answers with one text is a `ReplyingCommand`: `reply` makes the status and the text. Its
//!    call is `respond::<Command, S, K>(alloc, source, sink)`.
//! 4. A command that replays by a row of servants and writes as it goes is a `PlayingCommand`: `play` writes
//!    to the sink, and `served` are the servants' counts of steps after the history. Its call is
//!    `perform::<Command, S, K>(alloc, servants, source, sink)`. Where `play` makes one text after all, it
//!    says it by `say`, and the lemmas `said_answered` and `unwritten_answered` of `proofs/Answering` answer
//!    its clause. Where it writes in several pieces, `Passing` of `com_io` has how pieces join.
//! 5. A command of another shape, as one under `Wait`, calls `receive::<Command, S, K>(alloc, source, sink)`
//!    and answers what was read; `refused_causes` and `answered_causes` then give the cause of its status. A
//!    command that reads nothing is asked `always` the same, of `sides_without_source`: `alone_causes`.
//! 6. The contract of the command's call is `answers`, `Responds ask fits`; with a row also `served`,
//!    `Serves ask fits served`, and `row`; with one text `unwritten`, that want of memory wrote nothing. That
//!    it is complete, `RespondsWhole ask fits`, is `responds_whole ask fits` of `proofs/Answering`.
//!
//! `com_top` has small commands to copy: `objref` answers with one text, and `replay` plays.
#![tactic(auto)]

mod commands;
mod inputs;
mod numbers;
mod scenarios;
mod sides;
mod statuses;

pub use com_base::Memory;
pub use commands::{InputReader, PlayingCommand, ReplyingCommand, perform, receive, respond};
pub use inputs::{Input, first_fault, read_as, refused_line, share};
pub use numbers::push_number;
pub use scenarios::read_scenario;
pub use sides::{TOO_LONG, handed_on, read_input, refuse, say};
pub use statuses::{Reply, Status, status_at};
