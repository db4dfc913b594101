//! The entries of a lane's actions on its own apartment.

ghost use Rattle.std.specs.Prelude.{◌≡◌, ℕ};
ghost use Rattle.com_model.specs.Sight.{Sight};
ghost use Rattle.com_model.specs.Deeds.{initialised, new_home, has_mode, uninitialised, filter_set, in_sta};

use com_base::{HOST_STA, HResult, MTA, Mode};
use com_model::Deed;

/// The entry of `init` in a lane with this home, where the next STA has the number `next_sta`: S_OK where the
/// lane has no home, S_FALSE where its home has the same mode, else RPC_E_CHANGED_MODE (CoInitializeEx).
pub fn init_deed(mode: Mode, home: Option<u32>, next_sta: u32) -> Deed
    ensures { (v : Sight) → v.next_sta ≡ next_sta → result ≡ initialised v mode home }
{
    let Some(home) = home else {
        return Deed::Init {
            mode,
            home: new_home(mode, next_sta),
            hr: HResult::S_OK,
        };
    };
    let hr = if has_mode(mode, home) {
        HResult::S_FALSE
    } else {
        HResult::RPC_E_CHANGED_MODE
    };
    Deed::Init { mode, home, hr }
}

// The home that a lane without home gets: the STA that is made next for `sta`, the MTA for `mta`.
fn new_home(mode: Mode, next_sta: u32) -> u32
    ensures { (v : Sight) → v.next_sta ≡ next_sta → result ≡ new_home v mode }
{
    match mode {
        Mode::Sta => next_sta,
        Mode::Mta => MTA,
    }
}

// Whether a home is of this mode: an STA for `sta`, and no STA for `mta`.
fn has_mode(mode: Mode, home: u32) -> bool
    ensures { result ≡ has_mode mode home }
{
    match mode {
        Mode::Sta => home >= HOST_STA,
        Mode::Mta => home < HOST_STA,
    }
}

/// The entry of `uninit` in a lane with this home and so many initialisations: one less is left, and none of
/// none (CoUninitialize).
pub fn uninit_deed(home: Option<u32>, count: u32) -> Deed
    ensures { (v : Sight) (l : ℕ) → v.home l ≡ home → v.count l ≡ count → result ≡ uninitialised v l }
{
    Deed::Uninit {
        home,
        count: count.saturating_sub(1),
    }
}

/// The entry of `setfilter` in a lane with this home: S_OK where it is an STA, else S_FALSE
/// (CoRegisterMessageFilter).
pub fn filter_deed(filter: Option<u32>, home: Option<u32>) -> Deed
    ensures { (v : Sight) (l : ℕ) → v.home l ≡ home → result ≡ filter_set v l filter }
{
    let hr = if in_sta(home) {
        HResult::S_OK
    } else {
        HResult::S_FALSE
    };
    Deed::SetFilter { filter, hr }
}

/// Whether the home is an STA.
pub fn in_sta(home: Option<u32>) -> bool
    ensures { result ≡ in_sta home }
{
    match home {
        None => false,
        Some(home) => home >= HOST_STA,
    }
}
