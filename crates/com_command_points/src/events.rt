//! The lines of events.
ghost use Rattle.std.specs.Prelude.{◌≡◌, ◌++◌, IfOk, OnOk};
ghost use Rattle.com_command_points.specs.Events.{cookie_words, event_line, event_lines};

use com_base::{ByteList, Memory};
use com_commands::push_number;
use com_deliveries::Delivery;
use std::alloc::Global;

// Appends cookies, each behind a space.
fn push_cookies(out: &mut ByteList, cookies: &[u64]) -> Result<(), Memory>
    ensures { OnOk result (out.new ≡ out.old ++ cookie_words cookies.now) }
{
    let mut rest = cookies;
    'cookies: while let Some((cookie, others)) = rest.split_first() {
        out.push_all(b" ")?;
        push_number(out, *cookie)?;
        rest = others;
    }
    Ok(())
}

// Appends the line of an event.
fn push_event(out: &mut ByteList, event: &Delivery) -> Result<(), Memory>
    ensures { OnOk result (out.new ≡ out.old ++ event_line event.now) }
{
    out.push_all(b"fire c")?;
    push_number(out, event.call as u64)?;
    push_cookies(out, event.cookies.as_slice())?;
    out.push_all(b"\n")
}

// Appends a line for each event.
fn push_events(out: &mut ByteList, events: &[Delivery]) -> Result<(), Memory>
    ensures { OnOk result (out.new ≡ out.old ++ event_lines events.now) }
{
    let mut rest = events;
    'events: while let Some((event, others)) = rest.split_first() {
        push_event(out, event)?;
        rest = others;
    }
    Ok(())
}

// A line for each event: its call, and the cookies of the sinks that got it. The only error is want of
// memory.
pub(crate) fn event_lines(alloc: Global, events: &[Delivery]) -> Result<ByteList, Memory>
    ensures { IfOk result (λ text. text ≡ event_lines events.now) }
{
    let mut out = ByteList::new(alloc);
    push_events(&mut out, events)?;
    Ok(out)
}
