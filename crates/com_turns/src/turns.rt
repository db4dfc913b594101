//! The turn of a lane.

ghost use Rattle.std.specs.Prelude.{◌≡◌, ℕ, ◌≤◌, [], IfOk, None, OnOk, Some, false, map, true};
ghost use Rattle.com_calls.specs.declared.rows.Enclosed.TheVariants.{Nothing};
ghost use Rattle.com_model.specs.declared.keeps.Opener.TheVariants.{Enters};
ghost use Rattle.com_model.specs.Deeds.{deed_of};
ghost use Rattle.com_model.specs.Frames.{Nobody, is_leave};
ghost use Rattle.com_model.specs.Lists.{first, where_true};
ghost use Rattle.com_model.specs.Rules.{is_script_turn, lane_next, next_by, rule_final, top};
ghost use Rattle.com_model.specs.Tables.{lane_sort, lanes};
ghost use Rattle.com_model.specs.Openers.{is_body};
ghost use Rattle.com_reference_moves.specs.Steps.{BodiesWhole, IsWhole};
ghost use Rattle.com_rules.specs.Room.{HasRoom};
ghost use Rattle.com_scene.specs.Actors.{acting_of};
ghost use Rattle.com_servant.specs.Rows.{one_served, row};
ghost use Rattle.com_state.specs.Parts.{openers_at};
ghost use Rattle.com_turns.specs.Turns.{ActsFit, IsNext, IsTurn, Steps, body_seen, deed_made, is_ruled};
ghost use Rattle.com_turns.specs.Turns.{kind_seen, turn_made};
ghost use Rattle.com_turns.specs.Work.{BodiesWork};
ghost use Rattle.com_view.specs.Seen.{bare, sight_by};

use crate::steps::{Bench, body_step, script_step};
use com_base::{Memory, Rows};
use com_body::{Action, Outcome};
use com_model::{Deed, Opener};
use com_rules::{Doing, Enclosed, Found, act, rule_deed, script_over};
use com_scene::Actor;
use com_servant::Servant;
use com_view::View;
use std::alloc::Global;

/// A turn of a lane: who makes the entry by a step, where one does, the entry, and what goes with it. The
/// step itself lies beside it: most turns are nobody's step, and a step is wide.
#[derive(Debug, Drop)]
pub struct Turn {
    /// Who makes the entry by its step, and nobody where no step does.
    pub acting: Actor,
    /// The entry, and what goes with it.
    pub doing: Doing,
}

impl Turn {
    /// What stands in the place of a turn before there is one.
    pub fn nothing(alloc: Global) -> Turn
        ensures nobody { acting_of result.acting ≡ Nobody }
        ensures enclosed { result.doing.enclosed ≡ Nothing }
        ensures carried { result.doing.carried ≡ [] }
    {
        by_rule(alloc, Deed::End)
    }
}

// An entry that is nobody's step.
fn by_rule(alloc: Global, deed: Deed) -> Turn
    ensures deed { result.doing.deed ≡ deed }
    ensures acting { acting_of result.acting ≡ Nobody }
    ensures enclosed { result.doing.enclosed ≡ Nothing }
    ensures carried { result.doing.carried ≡ [] }
{
    Turn {
        acting: Actor::Nobody,
        doing: Doing {
            deed,
            enclosed: Enclosed::Nothing,
            carried: Rows::new(alloc),
        },
    }
}

// The turn of whoever goes on by a step in a lane, in the place of another.
fn step_turn<B: Found>(
    view: &View<'_>,
    books: &B,
    alloc: Global,
    lane: u32,
    acting: Actor,
    outcome: &Outcome,
    turn: &mut Turn,
) -> Result<(), Memory>
    requires room { HasRoom view.now (B.books books.now) }
    requires acts { ActsFit view.now }
    requires steps { Steps view.now lane (acting_of acting) outcome.now }
    requires next { lane_next view.now.scenario (sight_by view.now (B.books books.now)) lane
        ≡ Some (deed_of view.now.scenario (sight_by view.now (B.books books.now)) lane
        outcome.now.action) }
    ensures turn { OnOk result (IsTurn view.now (B.books books.now) lane (Some outcome.now) turn.new) }
{
    match act(view, books, alloc, lane, &outcome.action) {
        Ok(doing) => {
            turn.acting = acting;
            turn.doing = doing;
            Ok(())
        }
        Err(error) => Err(error),
    }
}

// Whether a step leaves.
fn is_leave(action: &Action) -> bool
    ensures { result ≡ is_leave action.now }
{
    match action {
        Action::Leave { .. } => true,
        _ => false,
    }
}

// The turn of a lane whose script acts and in which no object waits for its Final: its step, or what comes
// after it has left.
fn own_step<B: Found>(
    view: &View<'_>,
    books: &B,
    alloc: Global,
    lane: u32,
    step: &mut Option<Outcome>,
    turn: &mut Turn,
) -> Result<(), Memory>
    requires none { step.old ≡ None }
    requires room { HasRoom view.now (B.books books.now) }
    requires acts { ActsFit view.now }
    requires script { is_script_turn (lane_sort view.now.scenario lane)
        (top (bare view.now) lane) ((bare view.now).over lane) ≡ true }
    requires no_final { rule_final (sight_by view.now (B.books books.now)) lane ≡ None }
    ensures whole { IsWhole step.new }
    ensures turn { OnOk result (IsTurn view.now (B.books books.now) lane step.new turn.new) }
{
    script_step(view, alloc, lane, step)?;
    let Some(outcome) = step else { unreachable!() };
    if is_leave(&outcome.action) {
        *step = None;
        *turn = by_rule(alloc, script_over(view, lane));
        return Ok(());
    }
    step_turn(
        view,
        books,
        alloc,
        lane,
        Actor::Script { lane },
        outcome,
        turn,
    )
}

// The turn of a lane whose script acts. The Final of a dying object that the lane serves comes before it. It
// is a function of its own, since a step is wide, and each turn of `own_turn` would make room for it.
#[inline(never)]
fn script_turn<B: Found>(
    view: &View<'_>,
    books: &B,
    alloc: Global,
    lane: u32,
    step: &mut Option<Outcome>,
    turn: &mut Turn,
) -> Result<(), Memory>
    requires none { step.old ≡ None }
    requires room { HasRoom view.now (B.books books.now) }
    requires acts { ActsFit view.now }
    requires script { is_script_turn (lane_sort view.now.scenario lane)
        (top (bare view.now) lane) ((bare view.now).over lane) ≡ true }
    ensures whole { IsWhole step.new }
    ensures turn { OnOk result (IsTurn view.now (B.books books.now) lane step.new turn.new) }
{
    if let Some(deed) = view.finals(lane) {
        *turn = by_rule(alloc, deed);
        return Ok(());
    }
    own_step(view, books, alloc, lane, step, turn)
}

/// Whether neither a body nor a script acts in a lane, so that what it does is by the rules alone.
pub fn is_ruled(view: &View<'_>, lane: u32) -> bool
    ensures { result ≡ is_ruled view.now lane }
{
    if view.is_in_body(lane) {
        return false;
    }
    !view.is_script_turn(lane)
}

/// Makes the entry of a lane in which neither a body nor a script acts, in the place of another; whether it makes
/// one as things stand. It is nobody's step, it issues no call and it carries no references: it is the turn
/// `ruled_turn` of its deed. The only error is want of memory.
pub fn rule_turn<B: Found>(
    view: &View<'_>,
    books: &B,
    alloc: Global,
    lane: u32,
    deed: &mut Deed,
) -> Result<bool, Memory>
    requires body { is_body (top (bare view.now) lane) ≡ false }
    requires script { is_script_turn (lane_sort view.now.scenario lane)
        (top (bare view.now) lane) ((bare view.now).over lane) ≡ false }
    ensures turn { IfOk result (λ made. IsNext view.now (B.books books.now) lane None
        (turn_made made deed.new)) }
{
    rule_deed(view, books, alloc, lane, deed)
}

// The turn of such a lane with the deed in it. It has a function of its own, since a turn is wide.
#[inline(never)]
fn ruled_turn<B: Found>(
    view: &View<'_>,
    books: &B,
    alloc: Global,
    lane: u32,
    turn: &mut Turn,
) -> Result<bool, Memory>
    requires body { is_body (top (bare view.now) lane) ≡ false }
    requires script { is_script_turn (lane_sort view.now.scenario lane)
        (top (bare view.now) lane) ((bare view.now).over lane) ≡ false }
    ensures turn { IfOk result (λ made. IsNext view.now (B.books books.now) lane None
        (where_true made turn.new)) }
{
    let mut deed = Deed::End;
    let made = rule_turn(view, books, alloc, lane, &mut deed)?;
    *turn = by_rule(alloc, deed);
    Ok(made)
}

/// Makes the turn of a lane in which no body is innermost, in the place of another; whether it makes an entry as
/// things stand. Where the lane's script makes the entry, its step is put in `step`. The only error is want of
/// memory.
pub fn own_turn<B: Found>(
    view: &View<'_>,
    books: &B,
    alloc: Global,
    lane: u32,
    step: &mut Option<Outcome>,
    turn: &mut Turn,
) -> Result<bool, Memory>
    requires none { step.old ≡ None }
    requires room { HasRoom view.now (B.books books.now) }
    requires acts { ActsFit view.now }
    requires body { is_body (top (bare view.now) lane) ≡ false }
    ensures whole { IsWhole step.new }
    ensures turn { IfOk result (λ made. IsNext view.now (B.books books.now) lane step.new
        (where_true made turn.new)) }
{
    if !view.is_script_turn(lane) {
        return ruled_turn(view, books, alloc, lane, turn);
    }
    script_turn(view, books, alloc, lane, step, turn)?;
    Ok(true)
}

/// The turn of a lane in which a body is innermost, whose step was computed before. The only error is want of
/// memory.
pub fn given_turn<B: Found>(
    view: &View<'_>,
    books: &B,
    alloc: Global,
    lane: u32,
    outcome: &Outcome,
) -> Result<Turn, Memory>
    requires room { HasRoom view.now (B.books books.now) }
    requires acts { ActsFit view.now }
    requires body { is_body (top (bare view.now) lane) ≡ true }
    requires step { (c o a : ℕ) → first (openers_at view.now.lanes lane) ≡ Some (Enters c o a)
        → outcome.now ≡ body_seen view.now c o }
    ensures turn { IfOk result (λ made. IsTurn view.now (B.books books.now) lane (Some outcome.now) made) }
{
    let Some(Opener::Enters { call, object, .. }) = view.lanes.top(lane) else {
        unreachable!()
    };
    let doing = act(view, books, alloc, lane, &outcome.action)?;
    Ok(Turn {
        acting: Actor::Body { call, object },
        doing,
    })
}

// The turn of a lane in which a body is innermost: a function of its own, since a step is wide, and each turn
// of `next_turn` would make room for it.
#[inline(never)]
fn body_turn<B: Found>(
    view: &View<'_>,
    books: &B,
    alloc: Global,
    lane: u32,
    servants: &mut Vec<Box<dyn Servant + Send>>,
    bench: &mut Bench,
    turn: &mut Turn,
) -> Result<(), Memory>
    requires none { bench.old.step ≡ None }
    requires room { HasRoom view.now (B.books books.now) }
    requires acts { ActsFit view.now }
    requires body { is_body (top (bare view.now) lane) ≡ true }
    requires bodies { BodiesWhole view.now.scene }
    requires works { BodiesWork view.now }
    requires row { map kind_of servants.old.items ≡ row }
    ensures whole { IsWhole bench.new.step }
    ensures row { map kind_of servants.new.items ≡ row }
    ensures turn { OnOk result (IsTurn view.now (B.books books.now) lane bench.new.step turn.new) }
    ensures deed { OnOk result (1 ≤ lane → lane ≤ lanes view.now.scenario →
        Some turn.new.doing.deed ≡ next_by view.now.scenario (sight_by view.now (B.books books.now))
        (lane_sort view.now.scenario lane) lane) }
    ensures served { OnOk result (map stepped servants.new.items
        ≡ one_served (kind_seen view.now lane) (map stepped servants.old.items)) }
{
    let Some(Opener::Enters { call, object, .. }) = view.lanes.top(lane) else {
        unreachable!()
    };
    body_step(view, alloc, call, object, servants, bench)?;
    let Some(outcome) = &bench.step else {
        unreachable!()
    };
    step_turn(
        view,
        books,
        alloc,
        lane,
        Actor::Body { call, object },
        outcome,
        turn,
    )
}

/// Makes the turn of a lane, in the place of another; whether it makes an entry as things stand: the entry that the
/// rules give the lane, who makes it by a step, and what goes with it. The step is put on the bench. Where a body is
/// innermost in the lane, the servant of its class's kind computes its step, and has made one more then. The only
/// error is want of memory.
pub fn next_turn<B: Found>(
    view: &View<'_>,
    books: &B,
    alloc: Global,
    lane: u32,
    servants: &mut Vec<Box<dyn Servant + Send>>,
    bench: &mut Bench,
    turn: &mut Turn,
) -> Result<bool, Memory>
    requires none { bench.old.step ≡ None }
    requires room { HasRoom view.now (B.books books.now) }
    requires acts { ActsFit view.now }
    requires bodies { BodiesWhole view.now.scene }
    requires works { BodiesWork view.now }
    requires row { map kind_of servants.old.items ≡ row }
    ensures whole { IsWhole bench.new.step }
    ensures row { map kind_of servants.new.items ≡ row }
    ensures turn { IfOk result (λ made. IsNext view.now (B.books books.now) lane bench.new.step
        (where_true made turn.new)) }
    ensures deed { IfOk result (λ made. 1 ≤ lane → lane ≤ lanes view.now.scenario →
        deed_made (where_true made turn.new) ≡ next_by view.now.scenario (sight_by view.now (B.books books.now))
        (lane_sort view.now.scenario lane) lane) }
    ensures served { OnOk result (map stepped servants.new.items
        ≡ one_served (kind_seen view.now lane) (map stepped servants.old.items)) }
{
    match view.lanes.top(lane) {
        Some(Opener::Enters { .. }) => {
            body_turn(view, books, alloc, lane, servants, bench, turn)?;
            Ok(true)
        }
        _ => own_turn(view, books, alloc, lane, &mut bench.step, turn),
    }
}
