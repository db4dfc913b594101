//! A replay that its caller drives: one step makes one entry and writes its line.
ghost use Rattle.std.specs.Prelude.{◌≡◌, ◌≤◌, ◌+◌, ◌∷◌, [], List, Err, IfOk, OnErr, is_some, length, map};
ghost use Rattle.std.specs.Arc.{arc_value};
ghost use Rattle.com_core.specs.Seen.{IsFirst};
ghost use Rattle.com_io.specs.Faults.{Rose};
ghost use Rattle.com_io.specs.Told.{Gains};
ghost use Rattle.com_model.specs.declared.deeds.Entry.{Entry as AnyEntry};
ghost use Rattle.com_model.specs.Ends.{ended_as, report};
ghost use Rattle.com_model.specs.Formed.{Formed};
ghost use Rattle.com_model.specs.Text.{line_text};
ghost use Rattle.com_runtime.specs.Turns.{served_at};
ghost use Rattle.com_servant.specs.Rows.{row};
ghost use Rattle.com_replay.specs.declared.lines.ReplayError.TheVariants as replay_error;
ghost use Rattle.com_replay.specs.Streaming.{IfDone, IfMore, is_done};
ghost use Rattle.com_replay.specs.Streams.{BrokenOff, IsEndOf, IsNextOf, StandsAt};

use crate::by_lane::box_of;
use crate::course::Course;
use crate::lines::ReplayError;
use crate::playing::{Playing, end};
use crate::replayed::Replayed;
use com_base::Memory;
use com_core::Core;
use com_io::Sink;
use com_model::{Entry, Scenario};
use com_schedule::Tries;
use com_servant::Servant;
use std::alloc::Global;
use std::marker::Model;
use std::sync::Arc;

/// A replay that is under way. It stands for a history: the entries that its steps have made so far, which are
/// the first ones of the one history of the scenario's schedule.
///
/// It is one box, so it is cheap to move.
#[derive(Drop)]
pub struct Stream {
    playing: Box<Playing>,
}

impl Model for Stream {
    ghost use Rattle.std.specs.Arc.{arc_value};
    ghost use Rattle.com_core.specs.Seen.{core_state};
    ghost use Rattle.com_replay.specs.Playing.{IsReady};
    ghost use Rattle.com_replay.specs.Streams.{Position, position};

    ghost Value = { Position };

    ghost view = { λ s. position (arc_value s.playing.value.scenario) (core_state s.playing.value.core.core)
        s.playing.value.course.tried s.playing.value.course.last };

    ghost invariant = { λ s. IsReady (arc_value s.playing.value.scenario) s.playing.value.core.core.scenario
        (core_state s.playing.value.core.core) s.playing.value.course };
}

/// What a step of a stream did.
#[derive(Drop)]
pub enum Step {
    /// The next entry was made, and its line was written.
    More {
        /// The stream behind the entry.
        stream: Stream,
        /// The entry.
        entry: Entry,
    },
    /// The history had ended: its report was written.
    Done(Replayed),
}

// The core of a formed scenario that its caller keeps too, before the first entry. The only error is want of memory.
fn core_of(alloc: Global, scenario: &Arc<Scenario>) -> Result<Core, Memory>
    requires formed { Formed (arc_value scenario.now) }
    ensures scenario { IfOk result (λ core. core.core.scenario ≡ arc_value scenario.now) }
    ensures first { IfOk result (λ core. IsFirst (arc_value scenario.now) core.core) }
{
    Core::new(alloc, scenario.clone()?)
}

impl Stream {
    /// The stream of a formed scenario before its first entry. It shares the scenario with its caller. The only
    /// error is want of memory.
    pub fn new(alloc: Global, scenario: Arc<Scenario>) -> Result<Stream, Memory>
        requires formed { Formed (arc_value scenario) }
        ensures scenario { IfOk result (λ stream. stream.scenario ≡ arc_value scenario) }
        ensures stands { IfOk result (λ stream. StandsAt stream []) }
    {
        let core = core_of(alloc, &scenario)?;
        let course = Course::new(alloc);
        let playing = box_of(
            alloc,
            Playing {
                scenario,
                core,
                course,
            },
        )?;
        Ok(Stream { playing })
    }

    /// Makes the next entry of the history for which the stream stands, and writes its line to the sink; or,
    /// where that history has ended, writes its report.
    ///
    /// It is `Done` exactly where the history has ended (`ended`), with how it ended, how many entries it has
    /// and its time (`done`); the sink then gained its report and nothing else (`report`), and no servant made a
    /// step (`unserved`). Otherwise there is `More`: the entry is the next one of the schedule's one history
    /// (`next`), the sink gained its line and nothing else (`line`), and the new stream stands for the history
    /// with that entry (`stands`), of the same scenario (`scenario`). Where a body made the entry, it is a step
    /// of the servant of its class's kind (`served`). The row has one servant of each kind, in the order of the
    /// kinds, and keeps them so (`row`).
    ///
    /// `WriteFault` comes only where the sink's count of faults rose in this call (`fault`); what was written is
    /// then a prefix of the line or the report (`prefix`). `Memory` is want of memory: nothing was written
    /// (`memory`), but servants may have counted steps. After either the stream is gone.
    pub fn step<K: Sink>(
        self,
        alloc: Global,
        servants: &mut Vec<Box<dyn Servant + Send>>,
        sink: &mut K,
    ) -> Result<Step, ReplayError>
        requires { map kind_of servants.old.items ≡ row }
        ensures ended { IfOk result (λ step. (h : List AnyEntry) → StandsAt self h
            → is_done step ≡ is_some (ended_as self.scenario h)) }
        ensures done { IfOk result (λ step. (h : List AnyEntry) → StandsAt self h
            → IfDone step (λ replayed. IsEndOf self.scenario h replayed)) }
        ensures report { IfOk result (λ step. (h : List AnyEntry) → StandsAt self h
            → IfDone step (λ _. Gains (K.held sink.old) (K.held sink.new) (report self.scenario h))) }
        ensures unserved { IfOk result (λ step.
            IfDone step (λ _. map stepped servants.new.items ≡ map stepped servants.old.items)) }
        ensures next { IfOk result (λ step. (h : List AnyEntry) → StandsAt self h
            → IfMore step (λ _ entry. IsNextOf self.scenario h entry)) }
        ensures line { IfOk result (λ step. (h : List AnyEntry) → StandsAt self h
            → IfMore step (λ _ entry. Gains (K.held sink.old) (K.held sink.new)
            (line_text self.scenario.version (length h + 1) entry))) }
        ensures stands { IfOk result (λ step. (h : List AnyEntry) → StandsAt self h
            → IfMore step (λ stream entry. StandsAt stream (entry ∷ h))) }
        ensures scenario { IfOk result (λ step. IfMore step (λ stream _. stream.scenario ≡ self.scenario)) }
        ensures served { IfOk result (λ step. (h : List AnyEntry) → StandsAt self h
            → IfMore step (λ _ entry. map stepped servants.new.items
            ≡ served_at self.scenario h entry.lane (map stepped servants.old.items))) }
        ensures row { map kind_of servants.new.items ≡ row }
        ensures prefix { OnErr result ((h : List AnyEntry) → StandsAt self h
            → BrokenOff self.scenario h (K.held sink.old) (K.held sink.new)) }
        ensures memory { result ≡ Err replay_error.Memory → K.held sink.new ≡ K.held sink.old }
        ensures fault { result ≡ Err replay_error.WriteFault
            → Rose (K.faults_of sink.old) (K.faults_of sink.new) }
        ensures counts { K.faults_of sink.old ≤ K.faults_of sink.new }
    {
        let Stream { mut playing } = self;
        let Playing {
            scenario,
            core,
            course,
        } = &mut *playing;
        match course.advance(alloc, &**scenario, core, servants, sink) {
            Ok(None) => {
                let entry = core.take_last();
                Ok(Step::More {
                    stream: Stream { playing },
                    entry,
                })
            }
            Ok(Some(replayed)) => {
                end(playing);
                Ok(Step::Done(replayed))
            }
            Err(error) => {
                end(playing);
                Err(error)
            }
        }
    }
}
