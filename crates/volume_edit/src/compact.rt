// Superseded lines taken out of a volume within its buffer: of those that are the same line only the last is kept.
ghost use Rattle.base_refusal.specs.Refusals.{no_refusal};
ghost use Rattle.std.specs.Prelude.{◌≡◌, ◌+◌, ◌-◌, ◌*◌, ◌/◌, length, take, drop, replicate};
ghost use Rattle.volume_form.specs.Rows.{row_of};
ghost use Rattle.header_check.specs.forms.Cards.{cards_in};
ghost use Rattle.volume_form.specs.Moved.{laid_at, moved};
ghost use Rattle.volume_form.specs.Marked.{trailer_card};
ghost use Rattle.volume_rules.specs.Volume.{joined};
ghost use Rattle.volume_rules.specs.Sound.{headers_of};
ghost use Rattle.volume_rules.specs.Judged.{volume_answer, form_in};
ghost use Rattle.volume_rules.specs.Latest.{latest, compacted};
ghost use Rattle.volume_rules.specs.SameLine.{same_line, same_number, same_on, superseded_on};
ghost use Rattle.volume_rules.specs.Packed.{Packed};
ghost use Rattle.volume_edit.specs.Written.{compact_answer, compacted_by};
ghost use Rattle.volume_edit.specs.Sequences.{sequence_of};
ghost use Rattle.volume_edit.specs.Parts.{Listed, LineFits, Closes, line_kept};

use base_refusal::Refusal;
use base_value::{Unread, Value};
use format_layout::CARD;
use value_field::spelling;
use value_field::spelling::Spelling;
use value_text::text;
use volume_check::judging;
use volume_form::{FIRST, Form, SECOND, building, moving, reading};

// How many cards and lines are kept.
#[derive(Clone, Copy)]
pub struct Kept {
    pub cards: usize,
    pub lines: usize,
}

// The sequence number of a line, as lines are told apart by it: what is no number is the same as any other that is none.
#[derive(Clone, Copy, PartialEq, Eq)]
enum Sequence {
    Absent,
    Number(i64),
    Odd,
}

// Where the name and the sequence number end on a directory card.
const FIRST_END: usize = 22;

const SECOND_END: usize = 27;

// The sequence number that was read.
#[tactic(auto, unfolding(crate::specs::Sequences::sequence_of))]
fn sequence_of(read: Result<Value, Unread>) -> Sequence
    ensures { result ≡ sequence_of read }
{
    match read {
        Ok(Value::Absent) => Sequence::Absent,
        Ok(Value::Whole(z)) => Sequence::Number(z),
        _ => Sequence::Odd,
    }
}

// Whether the sequence numbers in some columns are equal by value.
fn same_number(columns: &[u8], others: &[u8]) -> bool
    ensures { result ≡ same_number columns.now others.now }
{
    let one = sequence_of(spelling::read(columns, Spelling::Whole));
    let other = sequence_of(spelling::read(others, Spelling::Whole));
    one == other
}

// Whether two directory cards are of the same line.
fn same_line(card: &[u8], other: &[u8]) -> bool
    requires { (length card.now ≡ 80) × (length other.now ≡ 80) }
    ensures { result ≡ same_on card.now other.now }
{
    let name = text::stretch(&card[FIRST..FIRST_END]);
    name == text::stretch(&other[FIRST..FIRST_END])
        && same_number(&card[SECOND..SECOND_END], &other[SECOND..SECOND_END])
}

// Whether one of some later directory cards is of the same line as a card.
fn is_superseded(card: &[u8], later: &[u8]) -> bool
    requires { length card.now ≡ 80 }
    ensures { result ≡ superseded_on card.now later.now (length later.now / 80) }
{
    later.chunks_exact(CARD).any(|other| same_line(card, other))
}

// Moves a line's cards down, and lays its directory card.
fn keep_line(buffer: &mut [u8], form: Form, at: usize, to: usize, n: usize, card: usize)
    requires { LineFits (row_of form) at to n card buffer.old }
    ensures { buffer.new ≡ line_kept (row_of form) at to n card buffer.old }
{
    let start = CARD * to;
    moving::move_down(buffer, CARD * at, start, CARD * n);
    let entry = building::entry_card(form, &buffer[start..], 1 + to as u64, n as u64);
    moving::lay(buffer, CARD * card, &entry);
}

// Moves the lines that are kept to the front, and their directory cards to the front of the directory. What is written never
// stands behind what is read.
fn pack(buffer: &mut [u8], form: Form, body: usize, count: usize) -> Kept
    requires { Listed (row_of form) (row_of form) body count buffer.old }
    ensures { Packed (row_of form) (take (80 * body) buffer.old) (take (80 * count) (drop (80 * body) buffer.old))
        (drop (80 * (body + count)) buffer.old) body count buffer.new result.cards result.lines }
{
    let end = CARD * (body + count);
    let mut at = 0;
    let mut cards = 0;
    let mut lines = 0;
    // By number: a turn moves cards that others read, so no iterator can hold the buffer.
    for i in 0..count {
        let here = CARD * (body + i);
        let next = here + CARD;
        let n = reading::count_on(form, &buffer[here..next]) as usize;
        let gone = is_superseded(&buffer[here..next], &buffer[next..end]);
        if !gone {
            keep_line(buffer, form, at, cards, n, body + lines);
            cards += n;
            lines += 1;
        }
        at += n;
    }
    Kept { cards, lines }
}

// Brings the directory of what is kept behind it, lays the trailer, and makes what is left of so many cards blank.
fn close(buffer: &mut [u8], form: Form, body: usize, kept: Kept, cards: usize)
    requires { Closes (row_of form) body kept.cards kept.lines cards buffer.old }
    ensures { buffer.new
        ≡ laid_at (laid_at (moved buffer.old (80 * body) (80 * kept.cards) (80 * kept.lines)) (80 * (kept.cards + kept.lines))
        (trailer_card (row_of form) (1 + kept.cards) kept.lines)) (80 * (kept.cards + kept.lines + 1))
        (replicate (80 * cards - 80 * (kept.cards + kept.lines + 1)) 32) }
{
    let to = kept.cards;
    let lines = kept.lines;
    let trailer = building::trailer_card(form, 1 + to as u64, lines as u64);
    moving::move_down(buffer, CARD * body, CARD * to, CARD * lines);
    moving::lay(buffer, CARD * (to + lines), &trailer);
    moving::blank(buffer, CARD * (to + lines + 1), CARD * cards);
}

// Compacts an accepted volume, and answers the new number of cards.
fn write(form: Form, buffer: &mut [u8], cards: usize) -> usize
    requires { volume_answer (row_of form) cards buffer.old ≡ no_refusal }
    ensures number { result
        ≡ cards_in (joined (latest same_line (headers_of (row_of form) cards (take (80 * cards) buffer.old))))
        + length (latest same_line (headers_of (row_of form) cards (take (80 * cards) buffer.old))) + 1 }
    ensures buffer { buffer.new
        ≡ compacted same_line (row_of form) (headers_of (row_of form) cards (take (80 * cards) buffer.old)) buffer.old }
{
    let first = judging::first_of(form, &buffer[..CARD * cards], cards);
    let kept = pack(buffer, form, first - 1, cards - first);
    close(buffer, form, first - 1, kept, cards);
    kept.cards + kept.lines + 1
}

// Compacts a volume of a form.
fn compact_in(form: Form, buffer: &mut [u8], cards: usize) -> Result<usize, Refusal>
    ensures answer { result ≡ compact_answer (row_of form) cards buffer.old }
    ensures buffer { buffer.new
        ≡ compacted_by (row_of form) (compact_answer (row_of form) cards buffer.old)
        (headers_of (row_of form) cards (take (80 * cards) buffer.old)) buffer.old }
{
    judging::judge(form, &buffer[..], cards)?;
    Ok(write(form, buffer, cards))
}

// Compacts a volume: of headers of the same line only the last is kept.
pub fn compact(buffer: &mut [u8], cards: usize) -> Result<usize, Refusal>
    ensures answer { result ≡ compact_answer (row_of (form_in cards buffer.old)) cards buffer.old }
    ensures buffer { buffer.new
        ≡ compacted_by (row_of (form_in cards buffer.old)) (compact_answer (row_of (form_in cards buffer.old)) cards buffer.old)
        (headers_of (row_of (form_in cards buffer.old)) cards (take (80 * cards) buffer.old)) buffer.old }
{
    let form = judging::form_of(&buffer[..], cards);
    compact_in(form, buffer, cards)
}
