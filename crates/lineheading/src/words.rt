// What lineheading says on standard error when it gives no heading.
use base_refusal::{NO_COMPASS, NO_CORRECTIONS, NO_DIRECTION, NO_READING, Refusal, TOO_MANY};

// What a refusal's number means.
fn why(number: usize) -> &'static str {
    match number {
        TOO_MANY => "the header has more than 4096 cards.",
        NO_COMPASS => "the serial is not defined exactly once on the H22@0 cards.",
        NO_CORRECTIONS => "there is not exactly one H23@0 card for the serial.",
        NO_DIRECTION => {
            "the direction is not of 0 to 360, or the H23@0 card lists one twice (0 and 360 are the same)."
        }
        NO_READING => "the raw reading is not of 0 to under 360, or has more than 11 places.",
        _ => "the header itself; ./lineshow says what is the matter with it.",
    }
}

// Says why there is no heading; where that fails too there is nobody to tell.
pub fn tell(rt: &HostRuntime, r: Refusal) {
    let _ = eprintln!(rt; "lineheading: refused {}: {}", r.number, why(r.number));
}
