//! HRESULTs: what is said of them.
ghost use Rattle.std.specs.Prelude.{◌≡◌, ◌++◌, OnOk};
ghost use Rattle.std.specs.Option.{option_copied};
ghost use Rattle.com_model.specs.Text.{hresult_text};
ghost use Rattle.com_draw_names.specs.Failures.{failure_if, failure_text, gloss, gloss_of};
ghost use Rattle.com_draw_names.specs.Failures.{hresult_behind, hresult_if};

use com_base::{ByteList, HResult, Memory};

// What an HRESULT says, where there are words for it.
fn gloss_of(hr: HResult) -> Option<&'static str>
    ensures { option_copied result ≡ gloss_of hr.0 }
{
    match hr.0 {
        0x8000_4001 => Some("it is not implemented"),
        0x8000_4002 => Some("it has no such interface"),
        0x8000_4003 => Some("there is no object"),
        0x8007_0057 => Some("there is no such thing"),
        0x8004_0154 => Some("there is no such class"),
        0x8004_01F0 => Some("the thread is in no apartment"),
        0x8004_01FD => Some("the object is cut off"),
        0x8001_0001 => Some("the call was rejected"),
        0x8001_0002 => Some("the call was cancelled"),
        0x8001_000C => Some("a reference in the answer leads nowhere"),
        0x8001_000E => Some("a reference in the call leads nowhere"),
        0x8001_0101 => Some("too much is open there"),
        0x8001_0106 => Some("it is in an apartment of the other kind"),
        0x8001_0107 => Some("there is no such method"),
        0x8001_0108 => Some("the object is cut off"),
        0x8001_010A => Some("the call was put off"),
        0x8001_011D => Some("the bytes are no reference"),
        _ => None,
    }
}

/// Appends an HRESULT: in version 2 its digits, otherwise its name, or its digits where it has none. The only
/// error is want of memory.
pub fn push_hresult(out: &mut ByteList, version: u8, hr: HResult) -> Result<(), Memory>
    ensures { OnOk result (out.new ≡ out.old ++ hresult_text version hr) }
{
    if version == 2 {
        return out.push_all(&hr.digits());
    }
    match hr.name() {
        Some(name) => out.push_all(name.as_bytes()),
        None => out.push_all(&hr.digits()),
    }
}

// Appends what an HRESULT says, or the HRESULT.
fn push_gloss(out: &mut ByteList, version: u8, hr: HResult) -> Result<(), Memory>
    ensures { OnOk result (out.new ≡ out.old ++ gloss version hr) }
{
    match gloss_of(hr) {
        Some(words) => out.push_all(words.as_bytes()),
        None => push_hresult(out, version, hr),
    }
}

/// Appends why something failed, behind a colon. The only error is want of memory.
pub fn push_failure(out: &mut ByteList, version: u8, hr: HResult) -> Result<(), Memory>
    ensures { OnOk result (out.new ≡ out.old ++ failure_text version hr) }
{
    out.push_all(b": ")?;
    push_gloss(out, version, hr)
}

/// Appends why something failed, behind a colon, where it did. The only error is want of memory.
pub fn push_failure_if(out: &mut ByteList, version: u8, hr: HResult) -> Result<(), Memory>
    ensures { OnOk result (out.new ≡ out.old ++ failure_if version hr) }
{
    if hr.is_failure() {
        return push_failure(out, version, hr);
    }
    Ok(())
}

/// Appends an HRESULT behind a colon. The only error is want of memory.
pub fn push_hresult_behind(out: &mut ByteList, version: u8, hr: HResult) -> Result<(), Memory>
    ensures { OnOk result (out.new ≡ out.old ++ hresult_behind version hr) }
{
    out.push_all(b": ")?;
    push_hresult(out, version, hr)
}

/// Appends an HRESULT behind a colon, where it tells a failure. The only error is want of memory.
pub fn push_hresult_if(out: &mut ByteList, version: u8, hr: HResult) -> Result<(), Memory>
    ensures { OnOk result (out.new ≡ out.old ++ hresult_if version hr) }
{
    if hr.is_failure() {
        return push_hresult_behind(out, version, hr);
    }
    Ok(())
}
