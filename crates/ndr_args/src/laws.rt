//! Laws of the grammar: functions that do nothing, whose contracts are the laws.
ghost use Rattle.std.specs.Prelude.{◌≡◌, ◌+◌, ◌*◌, ◌^◌, ◌≤◌, List, ℕ, [], ◌++◌, Ok, length};
ghost use Rattle.std.specs.List.{AllByRecursion};
ghost use Rattle.com_base.specs.declared.value.Kind.{Kind};
ghost use Rattle.ndr_args.specs.declared.wire.Wire.{Wire};
ghost use Rattle.ndr_args.specs.Grammar.{IsArgs};
ghost use Rattle.ndr_args.specs.Reading.{args_of};
ghost use Rattle.ndr_args.specs.Written.{written_args, length_args, CanSendAll, IsInRange};

/// What the writer writes is in the grammar, and is read again as the values that were written. Each
/// referent fits where there are fewer than about a thousand million references.
pub fn written_is_read()
    ensures grammar { (kinds : List Kind) (values : List Wire) → CanSendAll kinds values
        → AllByRecursion IsInRange values
        → 0x20000 + 4 * length values ≤ 2 ^ 32 → IsArgs kinds 0 values (written_args values) }
    ensures again { (kinds : List Kind) (values : List Wire) → CanSendAll kinds values
        → AllByRecursion IsInRange values
        → 0x20000 + 4 * length values ≤ 2 ^ 32 → args_of kinds (written_args values) ≡ Ok values }
{}

/// No stream is the front of another one of the same kinds, so the kinds tell where it ends.
pub fn no_front_is_whole()
    ensures { (kinds : List Kind) (values others : List Wire) (front more : List ℕ)
        → IsArgs kinds 0 values front
        → IsArgs kinds 0 others (front ++ more) → (values ≡ others) × (more ≡ []) }
{}

/// A stream has as many bytes as `length_args` counts without writing any.
pub fn written_has_its_length()
    ensures { (values : List Wire) → AllByRecursion IsInRange values
        → length (written_args values) ≡ length_args values }
{}
