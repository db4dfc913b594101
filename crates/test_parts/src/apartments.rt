//! What CoInitializeEx answers: S_FALSE where the thread is initialised already, RPC_E_CHANGED_MODE where it is so
//! in the other mode. Each success, S_FALSE too, is balanced by one CoUninitialize.

use com_apts::Apartments;
use com_base::{HResult, Mode};
use std::test::*;

#[test]
fn every_success_is_balanced_by_one_uninit(rt: HostRuntime) -> Result<(), Fail> {
    let mut apartments = Apartments::new(rt.alloc(), 1, 2)?;
    assert_eq!(rt; apartments.main_sta(), 2);
    assert_eq!(rt; apartments.init(1, Mode::Sta)?, HResult::S_OK);
    assert_eq!(rt; apartments.home(1), Some(3));
    assert_eq!(rt; apartments.main_sta(), 3);
    assert_eq!(rt; apartments.init(1, Mode::Sta)?, HResult::S_FALSE);
    assert_eq!(rt; apartments.init(1, Mode::Mta)?, HResult::RPC_E_CHANGED_MODE);
    assert_eq!(rt; apartments.uninit(1), None);
    assert_eq!(rt; apartments.ended(3), false);
    assert_eq!(rt; apartments.uninit(1), Some(3));
    assert_eq!(rt; apartments.home(1), None);
    assert_eq!(rt; apartments.ended(3), true);
    assert_eq!(rt; apartments.uninit(1), None);
    Ok(())
}
