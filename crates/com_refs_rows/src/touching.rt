//! The objects that lost their last holder.

ghost use Rattle.std.specs.Prelude.{◌≡◌, ◌||◌, ◌&&◌, ◌==◌, ◌+◌, ◌<◌, ◌≤◌, ℕ, vec_len, vec_capacity};
ghost use Rattle.std.specs.List.{insert};
ghost use Rattle.com_model.specs.Lists.{is_member, is_number};
ghost use Rattle.com_refs_rows.specs.Moving.{Climbs};

/// An object lost its last holder: it is written down once, in its place by number.
pub fn touch(touched: &mut Vec<u32>, object: u32)
    requires room { vec_len touched.old < vec_capacity touched.old }
    ensures members { (x : ℕ)
        → is_member x touched.new.items ≡ (is_member x touched.old.items || x == object) }
    ensures climbs { Climbs 0 touched.old.items → Climbs 0 touched.new.items }
    ensures len { vec_len touched.new ≤ vec_len touched.old + 1 }
    ensures capacity { vec_capacity touched.old ≤ vec_capacity touched.new }
{
    match touched.binary_search(&object) {
        Ok(_) => {}
        Err(place) => put(touched, place, object),
    }
}

// Puts an object at a place.
fn put(touched: &mut Vec<u32>, place: usize, object: u32)
    requires place { place ≤ vec_len touched.old }
    requires room { vec_len touched.old < vec_capacity touched.old }
    ensures items { touched.new.items ≡ insert touched.old.items place object }
    ensures len { vec_len touched.new ≤ vec_len touched.old + 1 }
    ensures capacity { vec_capacity touched.old ≤ vec_capacity touched.new }
{
    match touched.insert(place, object) {
        Ok(()) => {}
        Err(_) => {}
    }
}

/// Notes the object as touched, where there is one.
pub fn touch_if(touched: &mut Vec<u32>, object: Option<u32>)
    requires room { vec_len touched.old < vec_capacity touched.old }
    ensures members { (x : ℕ)
        → is_member x touched.new.items ≡ (is_member x touched.old.items || is_number x object) }
    ensures climbs { Climbs 0 touched.old.items → Climbs 0 touched.new.items }
    ensures len { vec_len touched.new ≤ vec_len touched.old + 1 }
    ensures capacity { vec_capacity touched.old ≤ vec_capacity touched.new }
{
    match object {
        None => {}
        Some(object) => touch(touched, object),
    }
}

/// Notes the object as touched, where its reference was lost.
pub fn touch_where(touched: &mut Vec<u32>, is_lost: bool, object: u32)
    requires room { vec_len touched.old < vec_capacity touched.old }
    ensures members { (x : ℕ)
        → is_member x touched.new.items ≡ (is_member x touched.old.items || (is_lost && x == object)) }
    ensures climbs { Climbs 0 touched.old.items → Climbs 0 touched.new.items }
    ensures len { vec_len touched.new ≤ vec_len touched.old + 1 }
    ensures capacity { vec_capacity touched.old ≤ vec_capacity touched.new }
{
    if is_lost {
        touch(touched, object);
        return;
    }
}
