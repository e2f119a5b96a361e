// Whether a whole number is one of the values that a field may have.
ghost use Rattle.std.specs.Prelude.{◌≡◌};
ghost use Rattle.format_layout.specs.Layouts.{is_any};
ghost use Rattle.format_layout.specs.ranges.Ranges.{allows, in_range};

use crate::Range;

fn is_any(range: Range) -> bool
    ensures { result ≡ is_any range }
{
    matches!(range, Range::Any)
}

fn allows_size(range: Range, value: u64) -> bool
    ensures { result ≡ allows range value }
{
    match range {
        Range::Any => true,
        Range::AtLeast(low) => low <= value,
        Range::Between(low, high) => low <= value && value <= high,
        Range::OneOf(a, b, c) => value == a || value == b || value == c,
    }
}

// Whether a whole number is one of the values that a field may have.
pub fn in_range(range: Range, value: i64) -> bool
    ensures { result ≡ in_range range value }
{
    match u64::try_from(value) {
        Ok(size) => allows_size(range, size),
        Err(_) => is_any(range),
    }
}
