//! Where a new object lives, by the threading model of its class.

ghost use Rattle.std.specs.Prelude.{◌≡◌};
ghost use Rattle.com_classes.specs.Activation.{apartment_of, is_agile, owner_for};

use crate::classes::ThreadingModel;
use crate::factory::Creator;
use com_base::{HOST_STA, MTA, NEUTRAL};

/// The owner of a new object: the main STA for no model; for `Apartment` the creator's apartment if it is an
/// STA, else the host's STA; the multithreaded apartment for `Free`; the running apartment for `Both`; the
/// neutral one for `Neutral` and `Agile`. Source: the documentation of `ThreadingModel`, "InprocServer32".
pub fn owner_for(model: ThreadingModel, creator: Creator) -> u32
    ensures { result ≡ owner_for model creator }
{
    match model {
        ThreadingModel::Nothing => creator.main_sta,
        ThreadingModel::Apartment => apartment_of(creator).max(HOST_STA),
        ThreadingModel::Free => MTA,
        ThreadingModel::Both => creator.running,
        ThreadingModel::Neutral | ThreadingModel::Agile => NEUTRAL,
    }
}

// The creator's apartment: the running one, but where that is the neutral one, the lane's home.
fn apartment_of(creator: Creator) -> u32
    ensures { result ≡ apartment_of creator }
{
    if creator.running == NEUTRAL {
        creator.home
    } else {
        creator.running
    }
}

/// Whether every apartment owns the objects of the model.
pub fn is_agile(model: ThreadingModel) -> bool
    ensures { result ≡ is_agile model }
{
    match model {
        ThreadingModel::Agile => true,
        _ => false,
    }
}
