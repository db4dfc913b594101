//! What an entry opens, closes, points at and touches.
ghost use Rattle.std.specs.Prelude.{◌≡◌};
ghost use Rattle.com_draw_shapes.specs.Effects.{closed_by, closes_home, closes_object, held_object};
ghost use Rattle.com_draw_shapes.specs.Effects.{lane_number, manner_of, opened_by, opens_home, opens_life};
ghost use Rattle.com_draw_shapes.specs.Effects.{points_of, points_to, touched_by};

use com_base::{HResult, RefValue};
use com_draw_state::{Manner, Opened};
use com_model::{Deed, Route};

/// What an entry opens in the picture.
#[derive(Debug, Clone, Copy)]
pub enum Opens {
    /// Nothing.
    Nothing,
    /// Its lane's home.
    Home { apartment: u32 },
    /// The life of an object.
    Life { object: u32, apartment: u32 },
    /// A pump, a call or a body in its lane.
    Level(Opened),
}

/// What an entry closes in the picture.
#[derive(Debug, Clone, Copy, PartialEq, Eq)]
pub enum Closing {
    /// Nothing.
    Nothing,
    /// Its lane's home, which is an apartment.
    Home { apartment: u32 },
    /// What is innermost in its lane.
    Innermost,
    /// An object is cut off.
    Cut { object: u32 },
    /// An object is no more.
    Life { object: u32 },
}

/// Where the arrow of an entry leads to or comes from.
#[derive(Debug, Clone, Copy, PartialEq, Eq)]
pub enum Points {
    /// There is none.
    Nowhere,
    /// To the lane to which a word or a quit is sent.
    Word { lane: u32 },
    /// From the caller, whose call is refused.
    Refusal,
    /// From the caller, whose call is taken in.
    Go,
    /// To the caller, who is answered.
    Answer,
}

/// What an entry opens, where its lane has a home or not.
pub fn opened_by(deed: &Deed, has_home: bool) -> Opens
    ensures { result ≡ opened_by has_home deed.now }
{
    match deed {
        Deed::Init { home, hr, .. } => opens_home(has_home, *home, *hr),
        Deed::Made {
            object: Some(object),
            apartment: Some(apartment),
            hr,
            ..
        } => opens_life(*object, *apartment, *hr),
        Deed::Pump { .. } => Opens::Level(Opened::Pumps),
        Deed::Out {
            call,
            iface,
            method,
            route,
            ..
        } => Opens::Level(Opened::Waits {
            call: *call,
            manner: manner_of(*route),
            iface: *iface,
            method: *method,
        }),
        Deed::Enter {
            call,
            apartment,
            ..
        } => Opens::Level(Opened::Runs {
            call: *call,
            apartment: *apartment,
        }),
        _ => Opens::Nothing,
    }
}

// What an Init opens: its lane's home, unless the lane had one or the Init failed.
fn opens_home(has_home: bool, home: u32, hr: HResult) -> Opens
    ensures { result ≡ opens_home has_home home hr }
{
    if has_home || hr.is_failure() {
        return Opens::Nothing;
    }
    Opens::Home { apartment: home }
}

// What a Made opens: the life of its object, unless it failed.
fn opens_life(object: u32, apartment: u32, hr: HResult) -> Opens
    ensures { result ≡ opens_life object apartment hr }
{
    if hr.is_failure() {
        return Opens::Nothing;
    }
    Opens::Life { object, apartment }
}

// How a call by this route is waited for.
fn manner_of(route: Route) -> Manner
    ensures { result ≡ manner_of route }
{
    match route {
        Route::Refused => Manner::Refused,
        Route::Post => Manner::Across,
        _ => Manner::Within,
    }
}

/// What an entry closes.
pub fn closed_by(deed: &Deed) -> Closing
    ensures { result ≡ closed_by deed.now }
{
    match deed {
        Deed::Uninit {
            home: Some(apartment),
            count,
        } => closes_home(*apartment, *count),
        Deed::EndPump => Closing::Innermost,
        Deed::Leave { .. } => Closing::Innermost,
        Deed::Back { .. } => Closing::Innermost,
        Deed::Disconnect {
            object: Some(object),
            hr,
        } => closes_object(*object, *hr),
        Deed::Final { object } => Closing::Life { object: *object },
        _ => Closing::Nothing,
    }
}

// What an Uninit closes: its lane's home where the count is 0 after it, else nothing.
fn closes_home(apartment: u32, count: u32) -> Closing
    ensures { result ≡ closes_home apartment count }
{
    if count == 0 {
        return Closing::Home { apartment };
    }
    Closing::Nothing
}

// What a Disconnect closes: it cuts its object off, unless it failed.
fn closes_object(object: u32, hr: HResult) -> Closing
    ensures { result ≡ closes_object object hr }
{
    if hr.is_failure() {
        return Closing::Nothing;
    }
    Closing::Cut { object }
}

/// Where the arrow of an entry leads to or comes from.
pub fn points_of(deed: &Deed) -> Points
    ensures { result ≡ points_of deed.now }
{
    match deed {
        Deed::Post { lane, hr, .. } => points_to(*lane, *hr),
        Deed::Quit { lane, hr } => points_to(*lane, *hr),
        Deed::Verdict { .. } => Points::Refusal,
        Deed::Refuse { .. } => Points::Refusal,
        Deed::Enter { .. } => Points::Go,
        Deed::Leave { .. } => Points::Answer,
        _ => Points::Nowhere,
    }
}

// A word or a quit points to the lane that it names; one that failed points nowhere.
fn points_to(lane: i64, hr: HResult) -> Points
    ensures { result ≡ points_to lane hr }
{
    if hr.is_failure() {
        return Points::Nowhere;
    }
    Points::Word {
        lane: lane_number(lane),
    }
}

// The number of a lane, and 0 where the value is none.
fn lane_number(lane: i64) -> u32
    ensures { result ≡ lane_number lane }
{
    if lane < 0 || lane > 0xffff_ffff {
        return 0;
    }
    lane as u32
}

/// The object that an entry touches.
pub fn touched_by(deed: &Deed) -> Option<u32>
    ensures { result ≡ touched_by deed.now }
{
    match deed {
        Deed::Query { object, .. } => *object,
        Deed::Copy { held } => held_object(*held),
        Deed::Release { held } => held_object(*held),
        Deed::Marshal { held, .. } => held_object(*held),
        Deed::Unmarshal { held, .. } => held_object(*held),
        Deed::Register { held, .. } => held_object(*held),
        Deed::Get { held, .. } => held_object(*held),
        Deed::Out { object, .. } => *object,
        Deed::Enter { object, .. } => Some(*object),
        Deed::Disconnect { object, .. } => *object,
        _ => None,
    }
}

// The object of a reference; none of null.
fn held_object(held: Option<RefValue>) -> Option<u32>
    ensures { result ≡ held_object held }
{
    match held {
        None => None,
        Some(held) => Some(held.object),
    }
}
