//! The page of the one history of a scenario with event sources.
ghost use Rattle.std.specs.Prelude.{◌≡◌, IfOk, OnOk, map};
ghost use Rattle.com_commands.specs.declared.statuses.TheConstants.{MEMORY_CODE};
ghost use Rattle.com_commands.specs.Inputs.{input_of};
ghost use Rattle.com_commands.specs.Responses.{Responds, Serves};
ghost use Rattle.com_commands.specs.Statuses.{sides_of};
ghost use Rattle.com_replay.specs.Replays.{whole_served};
ghost use Rattle.com_model.specs.Formed.{Formed};
ghost use Rattle.com_points.specs.Sources.{reading_points};
ghost use Rattle.com_scenario.specs.Sizes.{is_too_long};
ghost use Rattle.com_servant.specs.Rows.{row};
ghost use Rattle.com_command_draw.specs.Pages.{ArePointsDrawn, points_concludes};

use crate::beginning::begin;
use crate::ending::end_page;
use crate::frame::{TellingCommand, answer_by_row};
use crate::stuck::explain_end;
use com_base::{Memory, Rows};
use com_command_points::PointsCommand;
use com_commands::{Reply, share, status_at};
use com_deliveries::deliveries;
use com_io::{Sink, Source};
use com_model::Scenario;
use com_servant::Servant;
use std::alloc::Global;

impl TellingCommand for PointsCommand {
    ghost fits = { ArePointsDrawn };

    ghost served = { whole_served };

    fn tell(
        alloc: Global,
        read: Scenario,
        servants: &mut Vec<Box<dyn Servant + Send>>,
    ) -> Result<Reply, Memory> {
        draw_points(alloc, read, servants)
    }

    ghost concludes = { points_concludes };
}

// The page of a scenario's one history with the events of its sources, and the status of its end. The only
// error is want of memory.
fn draw_points(
    alloc: Global,
    scenario: Scenario,
    servants: &mut Vec<Box<dyn Servant + Send>>,
) -> Result<Reply, Memory>
    requires formed { Formed scenario }
    requires row { map kind_of servants.old.items ≡ row }
    ensures answer { IfOk result (λ reply. ArePointsDrawn scenario reply.status reply.text) }
    ensures served { OnOk result (map stepped servants.new.items
        ≡ whole_served scenario (map stepped servants.old.items)) }
    ensures row { map kind_of servants.new.items ≡ row }
{
    let scenario = share(alloc, scenario)?;
    let drawn = begin(alloc, &scenario, servants, true)?;
    let (begun, entries) = drawn;
    let events = deliveries(alloc, &*scenario, entries.as_slice())?;
    let ended = begun.ended;
    let waits = explain_end(alloc, &scenario, ended)?;
    let text = end_page(alloc, begun, waits, Rows::from_vec(events))?;
    Ok(Reply {
        status: status_at(ended),
        text,
    })
}

/// Reads a scenario from the source, whose text may declare event sources by lines `source <name> <guid>
/// <model>`, and writes the page of its one history to the sink, with each event marked and with the cookies
/// of the sinks that got it. An input that is too long or whose text is no scenario is refused by a line with
/// the line, the column and the number of the fault. The answer is the exit status: each has its cause
/// (`answers`). Where want of memory comes, nothing was written (`unwritten`).
///
/// The row has one servant of each kind, in the order of the kinds, and keeps them so (`row`). Where the
/// status is 0, 5 or 6, each has counted the entries that bodies of its kind made (`served`).
pub fn draw_points_main<S: Source, K: Sink>(
    alloc: Global,
    servants: &mut Vec<Box<dyn Servant + Send>>,
    source: &mut S,
    sink: &mut K,
) -> u8
    requires { map kind_of servants.old.items ≡ row }
    ensures answers { Responds (input_of is_too_long reading_points) ArePointsDrawn result
        (sides_of S.left S.faults_of K.held K.faults_of source.old source.new sink.old sink.new) }
    ensures served { Serves (input_of is_too_long reading_points) ArePointsDrawn whole_served result
        (sides_of S.left S.faults_of K.held K.faults_of source.old source.new sink.old sink.new)
        (map stepped servants.old.items) (map stepped servants.new.items) }
    ensures row { map kind_of servants.new.items ≡ row }
    ensures unwritten { result ≡ MEMORY_CODE → K.held sink.new ≡ K.held sink.old }
{
    answer_by_row::<PointsCommand, S, K>(alloc, servants, source, sink)
}
