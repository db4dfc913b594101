//! The step of whoever acts in a scene, by the statements of its body.
ghost use Rattle.std.specs.Prelude.{◌≡◌, IfOk, Some};
ghost use Rattle.com_body.specs.BodySteps.{body_step};
ghost use Rattle.com_scene.specs.Actors.{acting_of};
ghost use Rattle.com_scene.specs.Kept.{FitsActor, IsStep};
ghost use Rattle.com_scene.specs.Scenes.{frame_of};
ghost use Rattle.com_turns.specs.Acting.{cells_for, step_of};

mod laws;

use com_body::{Body, Cells, Frame, Memory, Outcome, step};
use com_scene::{Actor, Scene};
pub use laws::steps_are_outcomes;
use std::alloc::Global;

// A copy of the frame of whoever acts.
fn own_frame(alloc: Global, scene: &Scene, actor: Actor) -> Result<Frame, Memory>
    ensures frame { IfOk result (λ frame. frame ≡ frame_of scene.now.tables (acting_of actor)) }
    ensures slots { IfOk result (λ frame. FitsActor (acting_of actor) frame) }
{
    match scene.frame(actor) {
        Some(frame) => frame.copy(alloc),
        None => Frame::enter(alloc, &[]),
    }
}

// The cells of whoever acts.
fn own_cells(scene: &Scene, actor: Actor) -> Cells
    ensures { result ≡ cells_for scene.now.tables (acting_of actor) }
{
    match actor {
        Actor::Body { object, .. } => scene.cells(object),
        _ => Cells::new(),
    }
}

// The step by a body from a frame and cells.
fn step_from(
    alloc: Global,
    body: &Body,
    actor: Actor,
    frame: Frame,
    cells: Cells,
) -> Result<Outcome, Memory>
    requires { FitsActor (acting_of actor) frame }
    ensures outcome { IfOk result (λ outcome. outcome ≡ body_step body.now frame cells) }
    ensures in_range { IfOk result (λ outcome. IsStep (acting_of actor) (Some outcome)) }
{
    let _statements = body.statements();
    step(alloc, body, frame, cells)
}

/// The next step of whoever acts, by the statements of its body or script, and none where nobody acts. The
/// scene stays as it is. The only error is want of memory.
pub fn step_of(
    alloc: Global,
    scene: &Scene,
    actor: Actor,
    body: &Body,
) -> Result<Option<Outcome>, Memory>
    ensures outcome { IfOk result (λ outcome. outcome ≡ step_of body.now scene.now.tables (acting_of actor)) }
    ensures in_range { IfOk result (λ outcome. IsStep (acting_of actor) outcome) }
{
    if let Actor::Nobody = actor {
        return Ok(None);
    }
    let frame = own_frame(alloc, scene, actor)?;
    let cells = own_cells(scene, actor);
    Ok(Some(step_from(alloc, body, actor, frame, cells)?))
}
