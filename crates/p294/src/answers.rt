// Every answer as numbers, for programs in other languages: one number that says it, and three that go with it.
ghost use Rattle.volume_check.specs.Lines.{line_place};
ghost use Rattle.std.specs.Prelude.{◌≡◌, false};
ghost use Rattle.p294.specs.answers.Replies.{plain, refused_reply, done_reply, mark, value_reply, field_reply, text_alone, entered_reply, count_reply, only_reply, counted_reply, key_reply, line_reply, heading_reply};

use base_digits::signs;
use base_refusal::Refusal;
use base_value::{Columns, Date, Decimal, Value};
use card_field::FieldRead;
use tie_lookup::questions::Defined;
use volume_check::LinePlace;

// What the answer with a text says.
const TEXT: i64 = 5;

// What an answer says, and the numbers that go with it. No two that stand side by side in the caller's list do so here: the
// compiler would load both as one, which has to wait until they are stored.
#[derive(Clone, Copy)]
pub struct Reply {
    pub second: i64,
    pub said: i64,
    pub first: i64,
    pub third: i64,
}

// A number without a sign.
fn plain_of(n: usize) -> i64
    ensures { result ≡ plain n }
{
    signs::signed(false, n as u64)
}

// An answer that says 0.
fn done() -> Reply
    ensures { result ≡ done_reply }
{
    Reply {
        said: 0,
        first: 0,
        second: 0,
        third: 0,
    }
}

// A refusal.
fn refused(r: Refusal) -> Reply
    ensures { result ≡ refused_reply r }
{
    let number = r.number;
    let card = r.card;
    let column = r.column;
    Reply {
        said: signs::signed(true, number as u64),
        first: plain_of(number),
        second: plain_of(card),
        third: plain_of(column),
    }
}

// A date.
fn of_date(d: Date) -> Reply
    ensures { result ≡ value_reply false (Value.Date d) }
{
    let year = d.year;
    let month = d.month;
    let day = d.day;
    Reply {
        said: 4,
        first: plain_of(year as usize),
        second: plain_of(month as usize),
        third: plain_of(day as usize),
    }
}

// A text's columns.
fn of_columns(c: Columns) -> Reply
    ensures { result ≡ value_reply false (Value.Text c) }
{
    let first = c.first;
    let last = c.last;
    Reply {
        said: TEXT,
        first: plain_of(first),
        second: plain_of(last),
        third: 0,
    }
}

// 1 for a number that is misplaced.
fn mark_of(misplaced: bool) -> i64
    ensures { result ≡ mark misplaced }
{
    i64::from(misplaced)
}

// A decimal.
fn of_decimal(d: Decimal, misplaced: bool) -> Reply
    ensures { result ≡ value_reply misplaced (Value.Decimal d) }
{
    let units = d.units;
    let places = d.places;
    Reply {
        said: 2,
        first: units,
        second: plain_of(places),
        third: mark_of(misplaced),
    }
}

// A value.
fn of_value(v: Value, misplaced: bool) -> Reply
    ensures { result ≡ value_reply misplaced v }
{
    match v {
        Value::Absent => done(),
        Value::Whole(z) => Reply {
            said: 1,
            first: z,
            second: 0,
            third: mark_of(misplaced),
        },
        Value::Decimal(d) => of_decimal(d, misplaced),
        Value::Angle(z) => Reply {
            said: 3,
            first: z,
            second: 0,
            third: 0,
        },
        Value::Date(d) => of_date(d),
        Value::Text(c) => of_columns(c),
    }
}

// The reading of a field.
#[tactic(auto, unfolding(crate::specs::answers::Replies::field_reply))]
pub fn of_field(read: Result<FieldRead, Refusal>) -> Reply
    ensures { result ≡ field_reply read }
{
    match read {
        Ok(field) => of_value(field.value, field.misplaced),
        Err(r) => refused(r),
    }
}

// The reading of a field as a text, by the answer to it: a value of another kind is none.
pub fn of_text(reply: Reply) -> Reply
    ensures { result ≡ text_alone reply }
{
    let said = reply.said;
    if said == TEXT {
        return reply;
    }
    if 0 < said {
        return done();
    }
    reply
}

// What came of an entry, or of opening a card.
#[tactic(auto, unfolding(crate::specs::answers::Replies::entered_reply))]
pub fn of_entered(entered: Result<(), Refusal>) -> Reply
    ensures { result ≡ entered_reply entered }
{
    match entered {
        Ok(()) => done(),
        Err(r) => refused(r),
    }
}

// A number of things.
fn counted(n: usize) -> Reply
    ensures { result ≡ count_reply n }
{
    Reply {
        said: plain_of(n),
        first: 0,
        second: 0,
        third: 0,
    }
}

// The place of a key's only definition.
fn only(card: usize, column: usize) -> Reply
    ensures { result ≡ only_reply card column }
{
    Reply {
        said: 1,
        first: plain_of(card),
        second: plain_of(column),
        third: 0,
    }
}

// So many, or why there are none.
#[tactic(auto, unfolding(crate::specs::answers::Replies::counted_reply))]
pub fn of_counted(number: Result<usize, Refusal>) -> Reply
    ensures { result ≡ counted_reply number }
{
    match number {
        Ok(n) => counted(n),
        Err(r) => refused(r),
    }
}

// What a header says of a key.
#[tactic(auto, unfolding(crate::specs::answers::Replies::key_reply))]
pub fn of_key(defined: Result<Defined, Refusal>) -> Reply
    ensures { result ≡ key_reply defined }
{
    match defined {
        Ok(Defined::None) => done(),
        Ok(Defined::Only(card, column)) => only(card, column),
        Ok(Defined::Several(n)) => counted(n),
        Err(r) => refused(r),
    }
}

// A line's cards.
fn placed(start: usize, number: usize, entry: usize) -> Reply
    ensures { result ≡ line_reply (Ok (line_place start number entry)) }
{
    Reply {
        said: plain_of(number),
        first: plain_of(start),
        second: plain_of(entry),
        third: 0,
    }
}

// Where a line of a volume stands.
#[tactic(auto, unfolding(crate::specs::answers::Replies::line_reply))]
pub fn of_line(found: Result<LinePlace, Refusal>) -> Reply
    ensures { result ≡ line_reply found }
{
    match found {
        Ok(line) => placed(line.first, line.cards, line.entry),
        Err(r) => refused(r),
    }
}

// What came of asking for a heading.
#[tactic(auto, unfolding(crate::specs::answers::Replies::heading_reply))]
pub fn of_heading(heading: Result<Decimal, Refusal>) -> Reply
    ensures { result ≡ heading_reply heading }
{
    match heading {
        Ok(d) => of_decimal(d, false),
        Err(r) => refused(r),
    }
}
