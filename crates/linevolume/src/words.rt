// What linevolume says on standard error when it does nothing else.
use base_refusal::{NO_CARDS_LEFT, NO_DIRECTORY, NO_SUCH, NO_TRAILER, NOT_OLD, Refusal, TOO_MANY};

// Whose refusal it is where it is a header's own.
#[derive(Clone, Copy)]
pub enum Whose {
    Volume,
    Header,
}

// What a refusal's number means.
fn why(number: usize, whose: Whose) -> &'static str {
    match (number, whose) {
        (NO_SUCH, _) => "the volume has no line at this place.",
        (NO_TRAILER, _) =>
            "this is no volume: its last card is no trailer that points at its directory.",
        (NO_DIRECTORY, _) => "the volume's directory does not agree with its headers.",
        (NO_CARDS_LEFT, _) => "the volume would have more cards than it may.",
        (NOT_OLD, _) => "the old form cannot hold this volume.",
        (_, Whose::Volume) =>
            "so a header in the volume is refused, its cards counted by themselves.",
        (TOO_MANY, Whose::Header) => {
            "the header has more cards than the volume's form allows, 800 or, if it is wide, 4096."
        }
        (_, Whose::Header) => "so the header is refused. ./lineshow tells more.",
    }
}

// Says why nothing is done; where that fails too there is nobody to tell.
pub fn tell(rt: &HostRuntime, r: Refusal, whose: Whose) {
    let why = why(r.number, whose);
    let _ = eprintln!(rt;
        "linevolume: refused {} {} {}: {why}",
        r.number, r.card, r.column
    );
}

// Says that a file is no whole number of cards.
pub fn tell_odd(rt: &HostRuntime) {
    let _ = eprintln!(rt;
        "linevolume: refused 18 0 0: the volume is not a whole number of cards of 80 bytes."
    );
}
