//! What slots and links hold after the step of whoever acts.
ghost use Rattle.std.specs.Prelude.{◌≡◌};
ghost use Rattle.com_scene.specs.Actors.{acting_of};
ghost use Rattle.com_scene.specs.Kept.{HasSlots};
ghost use Rattle.com_scene.specs.Ranges.{FitsDeed};
ghost use Rattle.com_scene.specs.Scenes.{frame_of};
ghost use Rattle.com_state.specs.SceneParts.{body_at, script_at};
ghost use Rattle.com_reference_moves.specs.Steps.{has_frame_of, is_on, slots_with, links_with};
ghost use Rattle.com_reference_moves.specs.Steps.{slots_stepped, links_stepped, FrameWhole, IsWhole};

use crate::written::{Written, written_by};
use com_base::{LINK_COUNT, RefValue, SLOT_COUNT};
use com_body::{Frame, Outcome, Place};
use com_model::Deed;
use com_scene::{Actor, Scene};

/// The slots of a frame.
#[tactic(auto, using(crate::proofs::Lists::eight))]
pub fn slots_of(frame: &Frame) -> [Option<RefValue>; 8]
    requires { HasSlots frame.now }
    ensures { result ≡ frame.now.slots }
{
    [
        frame.slot(0),
        frame.slot(1),
        frame.slot(2),
        frame.slot(3),
        frame.slot(4),
        frame.slot(5),
        frame.slot(6),
        frame.slot(7),
    ]
}

// The slots of a body's frame as the scene has it.
fn body_slots(scene: &Scene, call: u32) -> [Option<RefValue>; 8]
    requires { HasSlots (body_at scene.now.tables call) }
    ensures { result ≡ (body_at scene.now.tables call).slots }
{
    match scene.frame(Actor::Body { call, object: 0 }) {
        None => [None; 8],
        Some(frame) => slots_of(frame),
    }
}

// The slots of a script as the scene has it.
fn script_slots(scene: &Scene, lane: u32) -> [Option<RefValue>; 8]
    ensures { result ≡ (script_at scene.now.tables lane).slots }
{
    match scene.frame(Actor::Script { lane }) {
        None => [None; 8],
        Some(frame) => slots_of(frame),
    }
}

// The slots of an actor's frame as the scene has it.
fn slots_before(scene: &Scene, who: Actor) -> [Option<RefValue>; 8]
    requires { FrameWhole scene.now.tables (acting_of who) }
    ensures { result ≡ (frame_of scene.now.tables (acting_of who)).slots }
{
    match who {
        Actor::Body { call, .. } => body_slots(scene, call),
        Actor::Script { lane } => script_slots(scene, lane),
        Actor::Nobody => [None; 8],
    }
}

// Whether whoever acts goes on in this actor's frame.
fn has_frame_of(acting: Actor, who: Actor) -> bool
    ensures { result ≡ has_frame_of (acting_of acting) (acting_of who) }
{
    match (acting, who) {
        (Actor::Body { call, .. }, Actor::Body { call: other, .. }) => other == call,
        (Actor::Script { lane }, Actor::Script { lane: other }) => other == lane,
        _ => false,
    }
}

// Whether whoever acts is a body on this object.
fn is_on(acting: Actor, other: u32) -> bool
    ensures { result ≡ is_on (acting_of acting) other }
{
    match acting {
        Actor::Body { object, .. } => other == object,
        _ => false,
    }
}

// Slots after a write, which may be to a link.
#[tactic(auto, using(crate::proofs::Lists::set_beyond))]
fn write_slot(slots: &mut [Option<RefValue>; 8], written: Option<Written>)
    ensures { slots.new ≡ slots_with written slots.old }
{
    let Some(Written { place, held }) = written else {
        return;
    };
    let Place::Slot(number) = place else {
        return;
    };
    if number < SLOT_COUNT {
        slots[number as usize] = held;
    }
}

// Links after a write, which may be to a slot.
#[tactic(auto, using(crate::proofs::Lists::set_beyond))]
fn write_link(links: &mut [Option<RefValue>; 4], written: Option<Written>)
    ensures { links.new ≡ links_with written links.old }
{
    let Some(Written { place, held }) = written else {
        return;
    };
    let Place::Link(number) = place else {
        return;
    };
    if number < LINK_COUNT {
        links[number as usize] = held;
    }
}

/// The slots of an actor's frame after the step of whoever acts.
pub fn slots_after(
    scene: &Scene,
    acting: Actor,
    outcome: &Option<Outcome>,
    deed: &Deed,
    who: Actor,
) -> [Option<RefValue>; 8]
    requires deed { FitsDeed deed.now }
    requires outcome { IsWhole outcome.now }
    requires frame { FrameWhole scene.now.tables (acting_of who) }
    ensures { result
        ≡ slots_stepped scene.now.tables (acting_of acting) outcome.now deed.now (acting_of who) }
{
    let Some(outcome) = outcome else {
        return slots_before(scene, who);
    };
    if !has_frame_of(acting, who) {
        return slots_before(scene, who);
    }
    let mut slots = slots_of(&outcome.frame);
    write_slot(&mut slots, written_by(&outcome.action, deed));
    slots
}

/// The links of an object after the step of whoever acts.
pub fn links_after(
    scene: &Scene,
    acting: Actor,
    outcome: &Option<Outcome>,
    deed: &Deed,
    object: u32,
) -> [Option<RefValue>; 4]
    requires deed { FitsDeed deed.now }
    ensures { result ≡ links_stepped scene.now.tables (acting_of acting) outcome.now deed.now object }
{
    let Some(outcome) = outcome else {
        return scene.cells(object).links;
    };
    if !is_on(acting, object) {
        return scene.cells(object).links;
    }
    let mut links = outcome.cells.links;
    write_link(&mut links, written_by(&outcome.action, deed));
    links
}
