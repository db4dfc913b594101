//! A value that stands for a list of entries, to which entries are added.
ghost use Rattle.std.specs.Prelude.{◌≡◌, length};

/// A value whose meaning is a list of entries that only grows. Each entry has the number of a lane.
///
/// Lanes are counted from 1, as the passes of a turnstile are. Lane 0 is for entries that belong to no lane,
/// which any pass may add.
pub trait Grows: Drop {
    ghost use Rattle.std.specs.Prelude.{ℕ, List};

    /// What the list has.
    type Entry;

    // The list.
    ghost list: { Self → List Self.Entry };

    // The lane of an entry.
    ghost lane: { Self.Entry → ℕ };

    /// How many entries the list has.
    fn length(&self) -> u64
        ensures { result ≡ length (list self.now) };
}
