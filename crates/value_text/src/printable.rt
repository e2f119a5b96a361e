// The bytes that may stand on a card: the place of the first that may not.
ghost use Rattle.std.specs.Prelude.{◌≡◌, ◌&&◌, leb};
ghost use Rattle.value_text.specs.printable.Bytes.{first_bad};
ghost use Rattle.value_text.specs.packed.Rows.{good_card};

use format_layout::{BLANK, CARD};

// The last printable byte; the first is the blank.
pub const LAST: u8 = 126;

// Whether a byte is printable.
pub(crate) fn is_printable(b: u8) -> bool
    ensures { result ≡ (leb 32 b && leb b 126) }
{
    matches!(b, BLANK..=LAST)
}

// Whether a card is whole and all its bytes printable, looked at in five rows of sixteen: no byte ends the loop early, so that
// it takes a row at a time; of a plain loop over 80 bytes the compiler makes a step of 64 and one of 16 that waits for it.
fn all_good(s: &[u8]) -> bool
    ensures { result ≡ good_card s.now }
{
    if s.len() != CARD {
        return false;
    }
    let mut good = true;
    for i in 0..16 {
        let first = is_printable(s[i]) & is_printable(s[i + 16]);
        let next = is_printable(s[i + 32]) & is_printable(s[i + 48]);
        good &= first & next & is_printable(s[i + 64]);
    }
    good
}

// The place of the first byte that is not printable, or the length.
pub fn first_bad(s: &[u8]) -> usize
    ensures { result ≡ first_bad s.now }
{
    if all_good(s) {
        return CARD;
    }
    s.iter().position(|b| !is_printable(*b)).unwrap_or(s.len())
}
