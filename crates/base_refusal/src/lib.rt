// Why something is refused, and where: the paper's numbers, named once.
#![tactic(auto)]

ghost use Rattle.std.specs.Prelude.{◌≡◌};
ghost use Rattle.base_refusal.specs.Refusals.{refusal};

// Of a length: no bytes, no whole number of cards, more cards than a header may have.
pub const EMPTY: usize = 1;

pub const ODD_LENGTH: usize = 2;

pub const TOO_MANY: usize = 3;

// Of a card: a byte that is not printable, a code that is not known, a place where it may not stand.
pub const UNPRINTABLE: usize = 4;

pub const UNKNOWN: usize = 5;

pub const MISPLACED: usize = 6;

// Of columns: filled though no field covers them, another label than the table's.
pub const STRAY: usize = 7;

pub const MISLABELLED: usize = 8;

// Of a field: badly formed, outside its range (or a form that is none), blank though needed.
pub const MALFORMED: usize = 9;

pub const OUTSIDE: usize = 10;

pub const MISSING: usize = 11;

// Of what a caller asks: a value of another kind than the field, no such field or class, no room in the columns.
pub const OTHER_KIND: usize = 12;

pub const NO_SUCH: usize = 13;

pub const NO_ROOM: usize = 14;

// Of a diskette file: a line of more than 80 characters, CR or LF without the other, or a last line without both.
pub const TOO_LONG: usize = 15;

pub const NO_LINE_END: usize = 16;

// Of an output that a caller lends: no room in it.
pub const NO_OUTPUT: usize = 17;

// Of a volume: no such number of cards or no trailer that points back, a directory that does not cover the headers, no room for more.
pub const NO_TRAILER: usize = 18;

pub const NO_DIRECTORY: usize = 19;

pub const NO_CARDS_LEFT: usize = 20;

// Of a wide volume: the old form cannot hold it.
pub const NOT_OLD: usize = 21;

// Of the datums of a header: one is defined more than once.
pub const DATUM_TWICE: usize = 22;

// Of a heading: a serial that is not defined exactly once, or has not exactly one card of corrections; a line direction outside
// 0 to 360, or one that the card lists twice; a raw reading outside 0 to under 360, or with too many places.
pub const NO_COMPASS: usize = 23;

pub const NO_CORRECTIONS: usize = 24;

pub const NO_DIRECTION: usize = 25;

pub const NO_READING: usize = 26;

// A refusal's number, card and column: 0 for a card or a column where there is none.
#[derive(Clone, Copy, Debug, PartialEq, Eq)]
pub struct Refusal {
    pub number: usize,
    pub card: usize,
    pub column: usize,
}

pub fn refuse(number: usize, card: usize, column: usize) -> Refusal
    ensures { result ≡ refusal number card column }
{
    Refusal {
        number,
        card,
        column,
    }
}

// Why nothing was written into columns, which are as they were.
#[derive(Clone, Copy, Debug, PartialEq, Eq)]
pub enum Unwritten {
    Unprintable,
    Malformed,
    OutOfRange,
    OtherKind,
    NoRoom,
}
