// A key that is offered, as one number. Its kind must be that of its class: the whole number 65 and the text A are the same list.
ghost use Rattle.std.specs.Prelude.{◌≡◌};
ghost use Rattle.tie_rules.specs.packed.Numbers.{packed};
ghost use Rattle.tie_rules.specs.Offered.{natural, whole_offered, pair_offered, text_offered};

use crate::packing::NONE;
use crate::{SERIALS, WAYPOINTS, packing};
use base_digits::signs;

// A whole number that is offered as a key of a class.
pub fn packed_whole(class: u64, number: i64) -> u64
    ensures { result ≡ packed class (whole_offered class (natural number)) }
{
    if signs::below_zero(number) {
        return NONE;
    }
    packing::packed_number(class, signs::magnitude(number))
}

// A pair that is offered as a key of a class.
pub fn packed_pair(class: u64, first: i64, second: i64) -> u64
    ensures { result ≡ packed class (pair_offered class (natural first) (natural second)) }
{
    if class != WAYPOINTS {
        return NONE;
    }
    if signs::below_zero(first) {
        return NONE;
    }
    if signs::below_zero(second) {
        return NONE;
    }
    packing::packed_both(signs::magnitude(first), signs::magnitude(second))
}

// A text that is offered as a key of a class.
pub fn packed_text(class: u64, text: &[u8]) -> u64
    ensures { result ≡ packed class (text_offered class text.now) }
{
    if class != SERIALS {
        return NONE;
    }
    packing::packed_columns(text)
}
