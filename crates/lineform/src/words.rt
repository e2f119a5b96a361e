// What lineform says on standard error when it converts nothing.
use base_refusal::{EMPTY, NO_LINE_END, ODD_LENGTH, Refusal, TOO_LONG, TOO_MANY, UNPRINTABLE};

// What a refusal's number means.
fn why(number: usize) -> &'static str {
    match number {
        EMPTY => "there is nothing to convert.",
        ODD_LENGTH => "the length is not a whole number of cards of 80 columns.",
        TOO_MANY => "more than 800 cards or lines.",
        UNPRINTABLE => "this byte is no printable ASCII character.",
        TOO_LONG => "the line has more than 80 characters.",
        NO_LINE_END => "a line ends in CR and LF together, and this one does not.",
        _ => "more than 65600 bytes, the most that is translated.",
    }
}

// Says why nothing is converted, and where: a card or a line by its number, and the column.
// Where that fails too there is nobody to tell.
pub fn tell(rt: &HostRuntime, r: Refusal, what: &str) {
    let why = why(r.number);
    let _ = if r.card == 0 {
        eprintln!(rt; "lineform: refused {}: {why}", r.number)
    } else {
        eprintln!(rt;
            "lineform: refused {}: {what}{}, column {}: {why}",
            r.number, r.card, r.column
        )
    };
}
