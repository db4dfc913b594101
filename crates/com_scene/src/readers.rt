//! What the tables hold before the first entry, and what is read from them.
ghost use Rattle.std.specs.Prelude.{◌≡◌, IfOk, IfSome, MatchOption, [], slice_index_or};
ghost use Rattle.com_body.specs.Frames.{entered};
ghost use Rattle.com_model.specs.Lists.{tabulated};
ghost use Rattle.com_state.specs.SceneParts.{body_at, cells_at, script_at};
ghost use Rattle.com_scene.specs.Actors.{acting_of};
ghost use Rattle.com_scene.specs.Kept.{FitsActor, HasSlots, IsKept};
ghost use Rattle.com_scene.specs.Scenes.{new_scene, frame_of};
ghost use Rattle.com_scene.specs.Seen.{seen};

use crate::actor::Actor;
use crate::tables::{CallRow, Tables};
use com_base::{ByteList, Memory};
use com_body::{Cells, Destination, Frame};
use std::alloc::Global;

// So many frames of scripts that have not begun.
#[tactic(auto, using(crate::proofs::RowLemmas::tabulated_more))]
fn new_scripts(alloc: Global, count: usize) -> Result<Vec<Frame>, Memory>
    ensures { IfOk result (λ scripts. scripts.items ≡ tabulated count (λ l. entered [])) }
{
    let mut scripts = Vec::new(alloc);
    for _ in 0..count {
        scripts.push(Frame::enter(alloc, &[])?)?;
    }
    Ok(scripts)
}

// So many empty buffers.
#[tactic(auto, using(crate::proofs::RowLemmas::tabulated_more))]
fn new_buffers(alloc: Global, count: usize) -> Result<Vec<ByteList>, Memory>
    ensures { IfOk result (λ buffers. buffers.items ≡ tabulated count (λ b. [])) }
{
    let mut buffers = Vec::new(alloc);
    for _ in 0..count {
        buffers.push(ByteList::new(alloc))?;
    }
    Ok(buffers)
}

#[tactic(auto, using(crate::proofs::RowLemmas::map_get, crate::proofs::RowLemmas::get_beyond, crate::proofs::RowLemmas::map_length))]
impl Tables {
    /// The tables before the first entry, with so many threads. The only error is want of memory.
    pub fn new(alloc: Global, threads: u32) -> Result<Tables, Memory>
        ensures { IfOk result (λ tables. seen tables ≡ new_scene threads) }
    {
        let mut calls = Vec::new(alloc);
        calls.push(CallRow {
            frame: None,
            destination: Destination::Nowhere,
        })?;
        let mut cells = Vec::new(alloc);
        cells.push(Cells::new())?;
        Ok(Tables {
            scripts: new_scripts(alloc, threads as usize + 1)?,
            calls,
            cells,
            buffers: new_buffers(alloc, 64)?,
        })
    }

    // The frame of a body, where it has one of its own.
    fn body(&self, call: u32) -> Option<&Frame>
        ensures { MatchOption result (body_at (seen self.now) call ≡ entered [])
            (λ frame. frame.now ≡ body_at (seen self.now) call) }
    {
        if call as usize >= self.calls.len() {
            return None;
        }
        match &self.calls[call as usize].frame {
            None => None,
            Some(seat) => Some(seat.frame()),
        }
    }

    // The frame of a script, where there is one.
    fn script(&self, lane: u32) -> Option<&Frame>
        requires { IsKept (seen self.now) }
        ensures frame { MatchOption result (script_at (seen self.now) lane ≡ entered [])
            (λ frame. frame.now ≡ script_at (seen self.now) lane) }
        ensures slots { IfSome result (λ frame. HasSlots frame.now) }
    {
        if lane as usize >= self.scripts.len() {
            return None;
        }
        Some(&self.scripts[lane as usize])
    }

    /// The frame of whoever acts, where it has one of its own.
    pub fn frame(&self, actor: Actor) -> Option<&Frame>
        requires { IsKept (seen self.now) }
        ensures frame { MatchOption result (frame_of (seen self.now) (acting_of actor) ≡ entered [])
            (λ frame. frame.now ≡ frame_of (seen self.now) (acting_of actor)) }
        ensures slots { IfSome result (λ frame. FitsActor (acting_of actor) frame.now) }
    {
        match actor {
            Actor::Body { call, .. } => self.body(call),
            Actor::Script { lane } => self.script(lane),
            Actor::Nobody => None,
        }
    }

    /// The cells of an object.
    pub fn cells_of(&self, object: u32) -> Cells
        ensures { result ≡ cells_at (seen self.now) object }
    {
        if (object as usize) < self.cells.len() {
            return self.cells[object as usize];
        }
        Cells::new()
    }

    /// The bytes in a packet buffer.
    pub fn buffer(&self, number: u8) -> &[u8]
        ensures { result.now ≡ slice_index_or (seen self.now).buffers number [] }
    {
        if (number as usize) < self.buffers.len() {
            return self.buffers[number as usize].as_slice();
        }
        &[]
    }
}
