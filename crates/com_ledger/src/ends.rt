//! The rows of entries that end a holder which is no place: a packet, a cookie, or all of a connection.
ghost use Rattle.std.specs.Prelude.{◌≡◌, ◌+◌, ◌<◌, ◌≤◌, ℕ, length, vec_len, vec_capacity};
ghost use Rattle.com_refs_holders.specs.Tables.{offers};
ghost use Rattle.com_model.specs.declared.deeds.Deed.TheVariants as deed;
ghost use Rattle.com_base.specs.declared.hresult.HResult.{HResult};
ghost use Rattle.com_state.specs.Parts.{ObjectTables};
ghost use Rattle.com_refs_rows.specs.Entries.{ClosesTables, GivesUp};
ghost use Rattle.com_refs_rows.specs.Moving.{Climbs, TouchesCounted};

use com_base::{HOST_STA, HResult};
use com_objects::Objects;
use com_refs::Refs;
use com_refs_rows::{disconnect, drop_packet, end_apartment, revoke};

/// The row of a packet that ends.
pub fn end_packet(refs: &mut Refs, touched: &mut Vec<u32>, packet: Option<u32>)
    requires room { vec_len touched.old < vec_capacity touched.old }
    ensures row { (objects : ObjectTables) (hr : HResult)
        → ClosesTables objects (deed.DropPacket packet hr) refs.old refs.new }
    ensures offers { (x j : ℕ) → offers refs.new x j ≡ offers refs.old x j }
    ensures issued { refs.new.issued ≡ refs.old.issued }
    ensures touched { TouchesCounted refs.old refs.new touched.old.items touched.new.items }
    ensures climbs { Climbs 0 touched.old.items → Climbs 0 touched.new.items }
    ensures len { vec_len touched.new ≤ vec_len touched.old + 1 }
    ensures capacity { vec_capacity touched.old ≤ vec_capacity touched.new }
{
    let Some(packet) = packet else {
        return;
    };
    drop_packet(refs, touched, packet);
    refs.tells();
}

/// The row of a cookie that ends.
pub fn end_cookie(refs: &mut Refs, touched: &mut Vec<u32>, cookie: &i64, hr: HResult)
    requires room { vec_len touched.old < vec_capacity touched.old }
    ensures row { (objects : ObjectTables)
        → ClosesTables objects (deed.Revoke cookie.now hr) refs.old refs.new }
    ensures offers { (x j : ℕ) → offers refs.new x j ≡ offers refs.old x j }
    ensures issued { refs.new.issued ≡ refs.old.issued }
    ensures touched { TouchesCounted refs.old refs.new touched.old.items touched.new.items }
    ensures climbs { Climbs 0 touched.old.items → Climbs 0 touched.new.items }
    ensures len { vec_len touched.new ≤ vec_len touched.old + 1 }
    ensures capacity { vec_capacity touched.old ≤ vec_capacity touched.new }
{
    if hr.0 != 0 {
        return;
    }
    let number = *cookie;
    revoke(refs, touched, number);
    refs.tells();
}

/// The row of a result's packet that is given up: the answer of its call is not its body's.
pub fn give_up(refs: &mut Refs, touched: &mut Vec<u32>, number: u32)
    requires room { vec_len touched.old < vec_capacity touched.old }
    ensures row { GivesUp number refs.old refs.new }
    ensures offers { (x j : ℕ) → offers refs.new x j ≡ offers refs.old x j }
    ensures issued { refs.new.issued ≡ refs.old.issued }
    ensures touched { TouchesCounted refs.old refs.new touched.old.items touched.new.items }
    ensures climbs { Climbs 0 touched.old.items → Climbs 0 touched.new.items }
    ensures len { vec_len touched.new ≤ vec_len touched.old + 1 }
    ensures capacity { vec_capacity touched.old ≤ vec_capacity touched.new }
{
    if number == 0 {
        return;
    }
    drop_packet(refs, touched, number);
    refs.tells();
}

/// An object that is disconnected.
pub fn end_connection(refs: &mut Refs, touched: &mut Vec<u32>, object: Option<u32>, hr: HResult)
    requires room { vec_len touched.old < vec_capacity touched.old }
    ensures row { (objects : ObjectTables)
        → ClosesTables objects (deed.Disconnect object hr) refs.old refs.new }
    ensures offers { (x j : ℕ) → offers refs.new x j ≡ offers refs.old x j }
    ensures issued { refs.new.issued ≡ refs.old.issued }
    ensures touched { TouchesCounted refs.old refs.new touched.old.items touched.new.items }
    ensures climbs { Climbs 0 touched.old.items → Climbs 0 touched.new.items }
    ensures len { vec_len touched.new ≤ vec_len touched.old + 1 }
    ensures capacity { vec_capacity touched.old ≤ vec_capacity touched.new }
{
    let Some(object) = object else {
        return;
    };
    if hr.0 != 0 {
        return;
    }
    disconnect(refs, touched, object);
}

/// The last Uninit of a lane's home, which ends it where it is an STA.
pub fn end_home(
    refs: &mut Refs,
    touched: &mut Vec<u32>,
    objects: &Objects,
    home: Option<u32>,
    count: u32,
)
    requires room { vec_len touched.old + length objects.now.tables.makings ≤ vec_capacity touched.old }
    ensures row { ClosesTables objects.now.tables (deed.Uninit home count) refs.old refs.new }
    ensures offers { (x j : ℕ) → offers refs.new x j ≡ offers refs.old x j }
    ensures issued { refs.new.issued ≡ refs.old.issued }
    ensures touched { TouchesCounted refs.old refs.new touched.old.items touched.new.items }
    ensures climbs { Climbs 0 touched.old.items → Climbs 0 touched.new.items }
    ensures len { vec_len touched.new ≤ vec_len touched.old + length objects.now.tables.makings }
    ensures capacity { vec_capacity touched.old ≤ vec_capacity touched.new }
{
    let Some(home) = home else {
        return;
    };
    if count > 0 {
        return;
    }
    if home < HOST_STA {
        return;
    }
    end_apartment(refs, touched, objects, home);
}
