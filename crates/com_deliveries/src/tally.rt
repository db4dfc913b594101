//! What was read of a history so far, by lane, by call and by object.
ghost use Rattle.std.specs.Prelude.{◌≡◌, ◌++◌, ◌∷◌, [], IfOk, OnOk, MatchOption, None, Some};
ghost use Rattle.com_deliveries.specs.Book.{after, begun, called, changed_by, closes_in, delivery, empty};
ghost use Rattle.com_deliveries.specs.Book.{ended, enters_in, events, deliveries_in};
ghost use Rattle.com_deliveries.specs.Book.{got, is_event, issues_in};
ghost use Rattle.com_deliveries.specs.Book.{leaves_in, makes_in, next_of, no_call, on_source, opens_in};
ghost use Rattle.com_deliveries.specs.Book.{reached_by, source_at};
ghost use Rattle.com_deliveries.specs.Rows.{row_at, with_row};
ghost use Rattle.com_model.specs.Answers.{is_S_OK};
ghost use Rattle.com_model.specs.Objects.{asked_number};
ghost use Rattle.com_laws_sources.specs.Histories.{first_number as first_of, result_cookie};

use crate::Delivery;
use crate::cookies::Cookies;
use crate::sources::{Source, advise, advised_of, has_iface, next_cookie, unadvise};
use crate::stacks::{Open, pop, push, top};
use com_base::{HResult, Memory, Value};
use com_body::Asked;
use com_model::{Deed, Entry};
use com_points::{ADVISE, FIRE, UNADVISE};
use std::alloc::Global;
use std::marker::Model;

// A call, and what became of it.
#[derive(Debug, Drop)]
pub(crate) struct Call {
    /// Its number, from 1.
    pub call: u32,
    /// The number of its target, from 1, and 0 for null.
    pub object: u32,
    /// The number of its interface, from 0.
    pub iface: u16,
    /// The number of its method, from 0.
    pub method: u16,
    /// The first of the values with which it was entered, as a number.
    pub number: i64,
    /// Of an event, the last cookie when it began.
    pub last: u64,
    /// Of an event, the cookies of the sinks to which its Outs went.
    pub cookies: Cookies,
    /// Whether its body left.
    pub has_left: bool,
}

// What was read so far: the objects in the order of their making, the calls in the order of their issue, and
// what stands open in each lane.
#[derive(Drop)]
pub(crate) struct Tally {
    objects: Vec<Source>,
    calls: Vec<Call>,
    lanes: Vec<Open>,
}

impl Model for Tally {
    ghost use Rattle.com_deliveries.specs.Book.{Book};

    ghost Value = { Book };

    ghost view = { λ t. record {
      objects = t.objects.items;
      calls = t.calls.items;
      lanes = t.lanes.items;
    } };
}

impl Tally {
    /// Before the first entry. It takes no memory.
    pub fn new(alloc: Global) -> Tally
        ensures { result ≡ empty }
    {
        Tally {
            objects: Vec::new(alloc),
            calls: Vec::new(alloc),
            lanes: Vec::new(alloc),
        }
    }

    /// Takes one entry more. The table has for each class the number of its interface, if it is a source.
    pub fn take(
        &mut self,
        alloc: Global,
        sources: &[Option<u16>],
        entry: &Entry,
    ) -> Result<(), Memory>
        ensures { OnOk result (self.new ≡ after sources.now entry.now self.old) }
    {
        let lane = entry.lane;
        match &entry.deed {
            Deed::Made {
                object: Some(_),
                apartment: Some(_),
                class,
                ..
            } => self.make(alloc, sources, *class),
            Deed::Out {
                call,
                object,
                iface,
                method,
                ..
            } => self.issue(alloc, lane, *call, *object, *iface, *method),
            Deed::Enter { call, values, .. } => self.enter(alloc, lane, *call, values.as_slice()),
            Deed::Leave {
                call,
                hr,
                value,
                ..
            } => self.leave(lane, *call, *hr, value),
            Deed::Pump { .. } => self.open(alloc, lane),
            Deed::EndPump => {
                self.close(lane);
                Ok(())
            }
            Deed::Back { .. } => {
                self.close(lane);
                Ok(())
            }
            _ => Ok(()),
        }
    }

    /// The events whose bodies left, by call number.
    pub fn deliveries(&self, alloc: Global) -> Result<Vec<Delivery>, Memory>
        ensures { IfOk result (λ events. events.items ≡ deliveries_in self.now) }
    {
        events_of(alloc, self.objects.as_slice(), self.calls.as_slice())
    }

    // An object of a class was made.
    fn make(&mut self, alloc: Global, sources: &[Option<u16>], class: Asked) -> Result<(), Memory>
        ensures { OnOk result (self.new ≡ makes_in sources.now class self.old) }
    {
        self.objects
            .push(Source::new(alloc, interface_of(sources, class)))?;
        Ok(())
    }

    // A call was issued in a lane: where the body on top sends an event, to its next sink.
    fn issue(
        &mut self,
        alloc: Global,
        lane: u32,
        call: u32,
        object: Option<u32>,
        iface: u16,
        method: u16,
    ) -> Result<(), Memory>
        ensures { OnOk result (self.new ≡ issues_in lane call object iface method self.old) }
    {
        let sender = top(self.lanes.as_slice(), lane);
        let next = next_of(self.objects.as_slice(), self.calls.as_slice(), sender);
        reach(self.calls.as_mut_slice(), sender, next)?;
        self.calls
            .push(new_call(alloc, call, object, iface, method))?;
        push(alloc, &mut self.lanes, lane, 0)
    }

    // The body of a call was entered.
    fn enter(&mut self, alloc: Global, lane: u32, call: u32, values: &[Value]) -> Result<(), Memory>
        ensures { OnOk result (self.new ≡ enters_in lane call values.now self.old) }
    {
        begin(
            self.calls.as_mut_slice(),
            self.objects.as_slice(),
            call,
            first_number(values),
        );
        push(alloc, &mut self.lanes, lane, call)
    }

    // The body of a call left.
    fn leave(
        &mut self,
        lane: u32,
        call: u32,
        hr: HResult,
        value: &Option<Value>,
    ) -> Result<(), Memory>
        ensures { OnOk result (self.new ≡ leaves_in lane call (is_S_OK hr) value.now self.old) }
    {
        pop(self.lanes.as_mut_slice(), lane);
        if hr == HResult::S_OK {
            change(&mut self.objects, self.calls.as_slice(), call, value)?;
        }
        finish(self.calls.as_mut_slice(), call);
        Ok(())
    }

    // What is no body was opened in a lane.
    fn open(&mut self, alloc: Global, lane: u32) -> Result<(), Memory>
        ensures { OnOk result (self.new ≡ opens_in lane self.old) }
    {
        push(alloc, &mut self.lanes, lane, 0)
    }

    // The innermost of a lane was closed.
    fn close(&mut self, lane: u32)
        ensures { self.new ≡ closes_in lane self.old }
    {
        pop(self.lanes.as_mut_slice(), lane);
    }
}

// The number of the interface of a class, if that is a source.
fn interface_of(sources: &[Option<u16>], class: Asked) -> Option<u16>
    ensures { result ≡ source_at sources.now (asked_number class) }
{
    match class {
        Asked::Number(number) => {
            if number == 0 {
                return None;
            }
            match sources.get(number as usize - 1) {
                None => None,
                Some(iface) => *iface,
            }
        }
        Asked::Guid(_) => None,
    }
}

// A call that was issued.
fn new_call(alloc: Global, call: u32, object: Option<u32>, iface: u16, method: u16) -> Call
    ensures { result ≡ called call object iface method }
{
    let object = match object {
        None => 0,
        Some(object) => object,
    };
    Call {
        call,
        object,
        iface,
        method,
        number: 0,
        last: 0,
        cookies: Cookies::new(alloc),
        has_left: false,
    }
}

// The row of a call.
fn row_of(calls: &[Call], call: u32) -> Option<&Call>
    ensures { MatchOption result (row_at calls.now call ≡ None)
        (λ row. row_at calls.now call ≡ Some row.now) }
{
    if call == 0 {
        return None;
    }
    calls.get(call as usize - 1)
}

// Whether a call is on an object of a source, by the source's interface.
fn is_on_source(objects: &[Source], call: &Call) -> bool
    ensures { result ≡ on_source objects.now call.now }
{
    has_iface(objects, call.object, call.iface)
}

// Whether a call sends an event.
fn is_event(objects: &[Source], call: &Call) -> bool
    ensures { result ≡ is_event objects.now call.now }
{
    is_on_source(objects, call) && call.method == FIRE
}

// The cookie of the next sink of an event, where the call sends one.
fn next_of(objects: &[Source], calls: &[Call], call: u32) -> Option<u64>
    ensures { result ≡ next_of objects.now (row_at calls.now call) }
{
    match row_of(calls, call) {
        None => None,
        Some(row) => {
            if !is_event(objects, row) {
                return None;
            }
            next_cookie(objects, row.object, row.cookies.last(), row.last)
        }
    }
}

// An event reached the sink with a cookie.
fn reach(calls: &mut [Call], call: u32, next: Option<u64>) -> Result<(), Memory>
    ensures { OnOk result (calls.new ≡ reached_by call next calls.old) }
{
    match next {
        None => Ok(()),
        Some(cookie) => reach_cookie(calls, call, cookie),
    }
}

// Puts a cookie behind those that the event of a call has reached. Nothing changes where there is
// no such call.
fn reach_cookie(calls: &mut [Call], call: u32, cookie: u64) -> Result<(), Memory>
    ensures { OnOk result (calls.new ≡ with_row (got cookie) no_call call calls.old) }
{
    if call == 0 || call as usize > calls.len() {
        return Ok(());
    }
    calls[call as usize - 1].cookies.push(cookie)
}

// The body of a call begins.
fn begin(calls: &mut [Call], objects: &[Source], call: u32, number: i64)
    ensures { calls.new ≡ with_row (begun objects.now number) no_call call calls.old }
{
    if call == 0 || call as usize > calls.len() {
        return;
    }
    begin_row(&mut calls[call as usize - 1], objects, number);
}

// What is kept of a call where its body begins: the first of its values as a number, and how many
// sinks of its object were advised so far.
fn begin_row(row: &mut Call, objects: &[Source], number: i64)
    ensures { row.new ≡ begun objects.now number row.old }
{
    row.last = advised_of(objects, row.object);
    row.number = number;
}

// The body of a call left.
fn finish(calls: &mut [Call], call: u32)
    ensures { calls.new ≡ with_row ended no_call call calls.old }
{
    if call == 0 || call as usize > calls.len() {
        return;
    }
    calls[call as usize - 1].has_left = true;
}

// What the Leave of a call with S_OK does to the sinks of its object.
fn change(
    objects: &mut [Source],
    calls: &[Call],
    call: u32,
    value: &Option<Value>,
) -> Result<(), Memory>
    ensures { OnOk result (objects.new ≡ changed_by objects.old (row_at calls.now call) value.now) }
{
    match row_of(calls, call) {
        None => Ok(()),
        Some(row) => change_by(objects, row, value),
    }
}

// What the Leave of this call with S_OK does to the sinks of its object: `advise` adds one, and
// `unadvise` takes one away.
fn change_by(objects: &mut [Source], row: &Call, value: &Option<Value>) -> Result<(), Memory>
    ensures { OnOk result (objects.new ≡ changed_by objects.old (Some row.now) value.now) }
{
    if !is_on_source(objects, row) {
        return Ok(());
    }
    if row.method == ADVISE {
        return advise(objects, row.object, cookie_in(value));
    }
    if row.method == UNADVISE {
        unadvise(objects, row.object, row.number);
    }
    Ok(())
}

// The first of the values, as a number.
fn first_number(values: &[Value]) -> i64
    ensures { result ≡ first_of values.now }
{
    match values {
        [Value::Int(number), ..] => *number,
        _ => 0,
    }
}

// The cookie that is a result.
fn cookie_in(value: &Option<Value>) -> u64
    ensures { result ≡ result_cookie value.now }
{
    match value {
        Some(Value::Int(number)) => { if *number < 0 { 0 } else { *number as u64 } }
        _ => 0,
    }
}

// The event that a call was.
fn delivery_of(call: &Call) -> Result<Delivery, Memory>
    ensures { IfOk result (λ d. d ≡ delivery call.now) }
{
    Ok(Delivery {
        call: call.call,
        object: call.object,
        cookies: call.cookies.rows()?,
    })
}

// The events of these calls whose bodies left.
fn events_of(alloc: Global, objects: &[Source], calls: &[Call]) -> Result<Vec<Delivery>, Memory>
    ensures { IfOk result (λ list. list.items ≡ events objects.now calls.now) }
{
    let mut deliveries = Vec::new(alloc);
    let mut rest = calls;
    'calls: while let Some((call, others)) = rest.split_first() {
        add(&mut deliveries, objects, call)?;
        rest = others;
    }
    Ok(deliveries)
}

// Takes a call up, if it is an event whose body left.
fn add(deliveries: &mut Vec<Delivery>, objects: &[Source], call: &Call) -> Result<(), Memory>
    ensures { OnOk result (deliveries.new.items ≡ deliveries.old.items
        ++ events objects.now (call.now ∷ [])) }
{
    if !is_event(objects, call) || !call.has_left {
        return Ok(());
    }
    deliveries.push(delivery_of(call)?)?;
    Ok(())
}
