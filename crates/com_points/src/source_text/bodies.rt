//! The lines of the language that every source has.

ghost use Rattle.std.specs.Prelude.{◌≡◌, IfOk};
ghost use Rattle.com_points.specs.Bodies.{point_text, advise_text, unadvise_text, round_text};
ghost use Rattle.com_points.specs.Bodies.{fire_text, rest_text};

use com_base::{ByteList, Memory};
use std::alloc::Global;

// The interface of a source, with its methods.
pub(crate) fn point(alloc: Global) -> Result<ByteList, Memory>
    ensures { IfOk result (λ text. text ≡ point_text) }
{
    let mut text = ByteList::new(alloc);
    text.push_all(b"interface IPoint {5C0B0030-0000-4000-8000-000000000001}\n")?;
    text.push_all(b"method advise ICounter -> int\nmethod unadvise int\nmethod fire int -> int\n")?;
    Ok(text)
}

// The body of `advise`.
#[tactic(auto, unfolding(crate::specs::Bodies::advise_text))]
fn advise(alloc: Global) -> Result<ByteList, Memory>
    ensures { IfOk result (λ text. text ≡ advise_text) }
{
    let mut text = ByteList::new(alloc);
    text.push_all(
        b"body IPoint.advise\nsame r1 s0 s7\nskipz r1 1\nleave E_POINTER\nload r2 c4\nadd r2 1\n",
    )?;
    text.push_all(
        b"load r1 c0\nskipz r1 1\nskip 4\nstore c0 r2\nstore c4 r2\ncopy k0 s0\nleave S_OK r2\n",
    )?;
    text.push_all(
        b"load r1 c1\nskipz r1 1\nskip 4\nstore c1 r2\nstore c4 r2\ncopy k1 s0\nleave S_OK r2\n",
    )?;
    text.push_all(
        b"load r1 c2\nskipz r1 1\nskip 4\nstore c2 r2\nstore c4 r2\ncopy k2 s0\nleave S_OK r2\n",
    )?;
    text.push_all(
        b"load r1 c3\nskipz r1 1\nskip 4\nstore c3 r2\nstore c4 r2\ncopy k3 s0\nleave S_OK r2\n",
    )?;
    text.push_all(b"leave 0x80040201\nend\n")?;
    Ok(text)
}

// The body of `unadvise`.
#[tactic(auto, unfolding(crate::specs::Bodies::unadvise_text))]
fn unadvise(alloc: Global) -> Result<ByteList, Memory>
    ensures { IfOk result (λ text. text ≡ unadvise_text) }
{
    let mut text = ByteList::new(alloc);
    text.push_all(b"body IPoint.unadvise\nless r1 0 r0\nskipz r1 1\nskip 1\nleave 0x80040200\n")?;
    text.push_all(b"set r1 r0\nload r2 c0\nsub r1 r2\nskipz r1 13\n")?;
    text.push_all(b"set r1 r0\nload r2 c1\nsub r1 r2\nskipz r1 12\n")?;
    text.push_all(b"set r1 r0\nload r2 c2\nsub r1 r2\nskipz r1 11\n")?;
    text.push_all(b"set r1 r0\nload r2 c3\nsub r1 r2\nskipz r1 10\n")?;
    text.push_all(b"leave 0x80040200\n")?;
    text.push_all(b"load r3 c1\nstore c0 r3\ncopy k0 k1\n")?;
    text.push_all(b"load r3 c2\nstore c1 r3\ncopy k1 k2\n")?;
    text.push_all(b"load r3 c3\nstore c2 r3\ncopy k2 k3\n")?;
    text.push_all(b"store c3 0\nrelease k3\nleave S_OK\nend\n")?;
    Ok(text)
}

// One event in the body of `fire`.
#[tactic(auto, unfolding(crate::specs::Bodies::round_text))]
fn round(alloc: Global) -> Result<ByteList, Memory>
    ensures { IfOk result (λ text. text ≡ round_text) }
{
    let mut text = ByteList::new(alloc);
    text.push_all(b"load r1 c0\nless r2 r5 r1\nskipz r2 2\ncopy s0 k0\nskip 16\n")?;
    text.push_all(b"load r1 c1\nless r2 r5 r1\nskipz r2 2\ncopy s0 k1\nskip 11\n")?;
    text.push_all(b"load r1 c2\nless r2 r5 r1\nskipz r2 2\ncopy s0 k2\nskip 6\n")?;
    text.push_all(b"load r1 c3\nless r2 r5 r1\nskipz r2 2\ncopy s0 k3\nskip 1\n")?;
    text.push_all(b"leave S_OK r6\nless r2 r4 r1\nskipz r2 1\nleave S_OK r6\n")?;
    text.push_all(b"set r5 r1\nadd r6 1\ncall s0 ICounter.add r0 -> r7\n")?;
    Ok(text)
}

// The body of `fire`.
#[tactic(auto, unfolding(crate::specs::Bodies::fire_text))]
fn fire(alloc: Global) -> Result<ByteList, Memory>
    ensures { IfOk result (λ text. text ≡ fire_text) }
{
    let round = round(alloc)?;
    let mut text = ByteList::new(alloc);
    text.push_all(b"body IPoint.fire\nload r4 c4\nset r5 0\nset r6 0\n")?;
    text.push_all(round.as_slice())?;
    text.push_all(round.as_slice())?;
    text.push_all(round.as_slice())?;
    text.push_all(round.as_slice())?;
    text.push_all(b"leave S_OK r6\nend\n")?;
    Ok(text)
}

// What stands behind the name, the CLSID and the model of a source: its interface, its bodies and its end.
#[tactic(auto, unfolding(crate::specs::Bodies::rest_text))]
pub(crate) fn rest(alloc: Global) -> Result<ByteList, Memory>
    ensures { IfOk result (λ text. text ≡ rest_text) }
{
    let advise = advise(alloc)?;
    let unadvise = unadvise(alloc)?;
    let fire = fire(alloc)?;
    let mut text = ByteList::new(alloc);
    text.push_all(b" IPoint\n")?;
    text.push_all(advise.as_slice())?;
    text.push_all(unadvise.as_slice())?;
    text.push_all(fire.as_slice())?;
    text.push_all(b"end\n")?;
    Ok(text)
}
