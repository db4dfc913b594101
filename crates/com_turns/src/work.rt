//! The job of a body.

ghost use Rattle.std.specs.Prelude.{◌≡◌, ◌↔◌, IfOk, IsTrue, OnOk, Some};
ghost use Rattle.com_reference_moves.specs.Steps.{BodiesWhole};
ghost use Rattle.com_scene.specs.Kept.{HasSlots};
ghost use Rattle.com_servant.specs.Steps.{IsOfItsClass};
ghost use Rattle.com_state.specs.SceneParts.{body_at};
ghost use Rattle.com_turns.specs.Work.{HasWork, IsWork, work_seen};

use crate::frames::{is_first_frame, same_frame};
use com_base::Memory;
use com_body::{Cells, Frame, Job, Native};
use com_scene::Actor;
use com_view::View;
use std::alloc::Global;

/// A job before there is one: frames of bodies are copied into the memory of its frame. The only error is want of
/// memory.
pub(crate) fn no_job(alloc: Global) -> Result<Job, Memory>
    ensures whole { IfOk result (λ job. HasSlots job.frame) }
{
    Ok(Job {
        kind: Native::Bodies,
        class: 0,
        iface: 0,
        method: 0,
        frame: Frame::enter(alloc, &[])?,
        cells: Cells::new(),
    })
}

// Makes a frame a copy of that of a body. The only error is want of memory.
fn fill_frame(
    view: &View<'_>,
    alloc: Global,
    call: u32,
    object: u32,
    frame: &mut Frame,
) -> Result<(), Memory>
    requires bodies { BodiesWhole view.now.scene }
    ensures whole { OnOk result (HasSlots frame.new) }
    ensures frame { OnOk result (frame.new ≡ body_at view.now.scene call) }
{
    match view.scene.frame(Actor::Body { call, object }) {
        Some(own) => frame.copy_from(own),
        None => {
            *frame = Frame::enter(alloc, &[])?;
            Ok(())
        }
    }
}

/// Makes a job that of the body of a call on an object, in the memory that it has. The only error is want of memory:
/// then it is some job.
pub(crate) fn fill_work(
    view: &View<'_>,
    alloc: Global,
    call: u32,
    object: u32,
    job: &mut Job,
) -> Result<(), Memory>
    requires bodies { BodiesWhole view.now.scene }
    requires work { HasWork view.now call object }
    ensures job { OnOk result (work_seen view.now call object ≡ Some job.new) }
    ensures class { OnOk result (IsOfItsClass view.now.scenario.classes job.new) }
    ensures whole { OnOk result (HasSlots job.new.frame) }
{
    let class = view.objects.class(object);
    let Some(declared) = view.scenario.classes.class(class) else {
        unreachable!()
    };
    let Some(issue) = view.calls.issue(call) else {
        unreachable!()
    };
    job.kind = declared.native;
    job.class = class;
    job.iface = issue.iface;
    job.method = issue.method;
    job.cells = view.scene.cells(object);
    fill_frame(view, alloc, call, object, &mut job.frame)
}

/// The job of the body of a call on an object: on copies of the body's frame and the object's cells. The only
/// error is want of memory.
pub fn work_of(view: &View<'_>, alloc: Global, call: u32, object: u32) -> Result<Job, Memory>
    requires bodies { BodiesWhole view.now.scene }
    requires work { HasWork view.now call object }
    ensures job { IfOk result (λ job. work_seen view.now call object ≡ Some job) }
    ensures class { IfOk result (λ job. IsOfItsClass view.now.scenario.classes job) }
    ensures whole { IfOk result (λ job. HasSlots job.frame) }
{
    let mut job = no_job(alloc)?;
    fill_work(view, alloc, call, object, &mut job)?;
    Ok(job)
}

// Whether a frame is that of a body.
fn fits_frame(view: &View<'_>, call: u32, object: u32, frame: &Frame) -> bool
    ensures { IsTrue result ↔ (body_at view.now.scene call ≡ frame.now) }
{
    match view.scene.frame(Actor::Body { call, object }) {
        Some(own) => same_frame(own, frame),
        None => is_first_frame(frame),
    }
}

/// Whether a job is that of the body of a call on an object, but for its cells.
pub fn fits_work(view: &View<'_>, call: u32, object: u32, job: &Job) -> bool
    ensures { IsTrue result ↔ IsWork view.now call object job.now }
{
    let class = view.objects.class(object);
    if job.class != class {
        return false;
    }
    let Some(declared) = view.scenario.classes.class(class) else {
        return false;
    };
    if job.kind != declared.native {
        return false;
    }
    let Some(issue) = view.calls.issue(call) else {
        return false;
    };
    if job.iface != issue.iface {
        return false;
    }
    if job.method != issue.method {
        return false;
    }
    fits_frame(view, call, object, &job.frame)
}

/// Whether two objects have the same cells.
pub fn same_cells(left: &Cells, right: &Cells) -> bool
    ensures { IsTrue result ↔ (left.now ≡ right.now) }
{
    *left == *right
}
