//! Statements, and the bodies and scripts that they make.

ghost use Rattle.std.specs.Prelude.{◌≡◌, ◌≤◌, ◌↔◌, IsTrue, [], length};
ghost use Rattle.std.specs.Option.{option_copied};
ghost use Rattle.com_body.specs.declared.operands.Destination.TheVariants as destination;
ghost use Rattle.com_model.specs.Formed.{IsClassNamed, IsInterfaceNamed, IsPlaceIn, FitsKind, FitKinds};
ghost use Rattle.com_model.specs.Formed.{FitsResult, FitsMethod, IsCall, IsGivenValue, IsFilterNamed};
ghost use Rattle.com_model.specs.Formed.{IsStatement, FormedBody};

use crate::tables::is_declared;
use crate::words::is_operand;
use com_base::{INTERFACE_LIMIT, Kind, PUMP_LIMIT, RAW_LIMIT, SKIP_LIMIT};
use com_body::{Arg, Asked, Body, Destination, Given, Place, Stmt};
use com_classes::Method;
use com_model::Scenario;
use std::marker::Model;

// Where a statement stands: in a body or a script, in a class whose objects keep links or not, and the last
// class that it may name.
#[derive(Debug, Drop)]
pub(crate) struct Standing {
    pub(crate) body: bool,
    pub(crate) links: bool,
    pub(crate) classes: u32,
}

impl Model for Standing {
    ghost use Rattle.com_model.specs.Formed.{Context};

    ghost Value = { Context };

    ghost view = { λ a. record { body = a.body; links = a.links; classes = a.classes } };
}

// Whether a class is one that may be named here.
fn is_class_named(at: &Standing, class: Asked) -> bool
    ensures { IsTrue result ↔ IsClassNamed at.now class }
{
    match class {
        Asked::Number(number) => 1 <= number && number <= at.classes,
        Asked::Guid(_) => true,
    }
}

// Whether a statement may name an interface: by the number of a declared one, or by any IID.
fn is_interface_named(scenario: &Scenario, iface: Asked) -> bool
    requires { length scenario.now.classes.interfaces ≤ INTERFACE_LIMIT }
    ensures { IsTrue result ↔ IsInterfaceNamed scenario.now iface }
{
    match iface {
        Asked::Number(number) => number < 0x1_0000 && is_declared(&scenario.classes, number as u16),
        Asked::Guid(_) => true,
    }
}

// Whether a place may stand here: a slot everywhere, a link where the objects keep links.
fn is_place_in(at: &Standing, place: Place) -> bool
    ensures { IsTrue result ↔ IsPlaceIn at.now place }
{
    match place {
        Place::Slot(_) => true,
        Place::Link(_) => at.links,
    }
}

// Whether an argument is of a parameter's sort.
fn fits_kind(kind: Kind, arg: &Arg) -> bool
    ensures { IsTrue result ↔ FitsKind kind arg.now }
{
    match (kind, arg) {
        (Kind::Ref(_), Arg::Op(_)) => false,
        (Kind::Ref(_), _) => true,
        (_, Arg::Op(operand)) => is_operand(operand),
        _ => false,
    }
}

// Whether there are as many arguments as parameters, and each is of its parameter's sort.
fn fit_kinds(kinds: &[Kind], args: &[Arg]) -> bool
    ensures { IsTrue result ↔ FitKinds kinds.now args.now }
{
    match (kinds, args) {
        ([], []) => true,
        ([], [_arg, _args @ ..]) => false,
        ([_kind, _kinds @ ..], []) => false,
        ([kind, kinds @ ..], [arg, args @ ..]) => fits_kind(*kind, arg) && fit_kinds(kinds, args),
    }
}

// Whether a result of this kind may go to a destination.
fn fits_result(kind: Option<Kind>, to: Destination) -> bool
    ensures { IsTrue result ↔ FitsResult kind to }
{
    match (kind, to) {
        (_, Destination::Nowhere) => true,
        (None, _) => false,
        (Some(Kind::Ref(_)), Destination::Slot(_)) => true,
        (Some(Kind::Ref(_)), Destination::Register(_)) => false,
        (Some(_), Destination::Register(_)) => true,
        (Some(_), Destination::Slot(_)) => false,
    }
}

// Whether arguments and a destination are those of a method.
fn fits_method(method: Option<&Method>, args: &[Arg], to: Destination) -> bool
    ensures { IsTrue result ↔ FitsMethod (option_copied method.entry) args.now to }
{
    match method {
        None => false,
        Some(method) => fit_kinds(method.params.as_slice(), args) && fits_result(method.result, to),
    }
}

// Whether a call has neither arguments nor a destination.
fn is_bare(args: &[Arg], to: Destination) -> bool
    ensures { IsTrue result ↔ ((args.now ≡ []) × (to ≡ destination.Nowhere)) }
{
    args.is_empty() && matches!(to, Destination::Nowhere)
}

// Whether a call may stand: on a declared interface, it has neither arguments nor a destination, or
// those of a method of that interface.
fn is_call(scenario: &Scenario, iface: u16, method: u16, args: &[Arg], to: Destination) -> bool
    ensures { IsTrue result ↔ IsCall scenario.now iface method args.now to }
{
    is_declared(&scenario.classes, iface)
        && (is_bare(args, to) || fits_method(scenario.classes.method(iface, method), args, to))
}

// Whether a body may give this: nothing, a slot, a register, or a value that has a literal.
fn is_given(given: &Given) -> bool
    ensures { IsTrue result ↔ IsGivenValue given.now }
{
    match given {
        Given::Op(operand) => is_operand(operand),
        _ => true,
    }
}

// Whether `setfilter` may name this: no filter, or a declared one by its number from 1.
fn is_filter_named(scenario: &Scenario, filter: Option<u32>) -> bool
    ensures { IsTrue result ↔ IsFilterNamed scenario.now filter }
{
    match filter {
        None => true,
        Some(number) => 1 <= number && number as usize <= scenario.filters.len(),
    }
}

// Whether so many statements may be passed over.
fn is_skip(count: u32) -> bool
    ensures { IsTrue result ↔ ((1 ≤ count) × (count ≤ SKIP_LIMIT)) }
{
    1 <= count && count <= SKIP_LIMIT
}

// Whether a statement may stand here.
fn is_statement(scenario: &Scenario, at: &Standing, statement: &Stmt) -> bool
    requires { length scenario.now.classes.interfaces ≤ INTERFACE_LIMIT }
    ensures { IsTrue result ↔ IsStatement scenario.now at.now statement.now }
{
    match statement {
        Stmt::Set { from, .. } => is_operand(from),
        Stmt::Add { from, .. } => is_operand(from),
        Stmt::Sub { from, .. } => is_operand(from),
        Stmt::Less { left, right, .. } => is_operand(left) && is_operand(right),
        Stmt::Load { .. } => at.body,
        Stmt::Store { from, .. } => at.body && is_operand(from),
        Stmt::Skip { count } => is_skip(*count),
        Stmt::SkipZero { count, .. } => is_skip(*count),
        Stmt::Create { class, iface, .. } => {
            is_class_named(at, *class) && is_interface_named(scenario, *iface)
        }
        Stmt::Query { iface, .. } => is_interface_named(scenario, *iface),
        Stmt::Copy { to, from } => is_place_in(at, *to) && is_place_in(at, *from),
        Stmt::Release { place } => is_place_in(at, *place),
        Stmt::Call {
            iface,
            method,
            args,
            destination,
            ..
        } => is_call(scenario, *iface, *method, args.as_slice(), *destination),
        Stmt::Raw { bytes, .. } => 1 <= bytes.len() && bytes.len() <= RAW_LIMIT,
        Stmt::Get { cookie, .. } => is_operand(cookie),
        Stmt::Revoke { cookie } => is_operand(cookie),
        Stmt::Post { lane, word } => is_operand(lane) && is_operand(word),
        Stmt::Quit { lane } => is_operand(lane),
        Stmt::Leave { given, .. } => at.body && is_given(given),
        Stmt::Init { .. } => !at.body,
        Stmt::Uninit => !at.body,
        Stmt::SetFilter { filter } => !at.body && is_filter_named(scenario, *filter),
        Stmt::Pump { bound } => !at.body && *bound <= PUMP_LIMIT,
        _ => true,
    }
}

// Whether a body or a script has at most so many statements, and each of them may stand there.
#[tactic(auto, using(crate::proofs::Whole::formed_body, crate::proofs::Whole::short_body))]
pub(crate) fn is_body(scenario: &Scenario, at: &Standing, limit: usize, body: &Body) -> bool
    requires { length scenario.now.classes.interfaces ≤ INTERFACE_LIMIT }
    ensures { IsTrue result ↔ FormedBody scenario.now at.now limit body.now }
{
    let statements = body.statements();
    statements.len() <= limit
        && statements
            .iter()
            .all(|statement| is_statement(scenario, at, statement))
}
