// A volume brought into another form within its buffer: each directory card is written anew where it stands, and so is the trailer.
ghost use Rattle.base_refusal.specs.Refusals.{no_refusal};
ghost use Rattle.std.specs.Prelude.{◌≡◌, ◌++◌, ◌+◌, ◌*◌, ◌/◌, length, take, drop};
ghost use Rattle.volume_form.specs.Moved.{laid_at};
ghost use Rattle.volume_form.specs.Rows.{row_of};
ghost use Rattle.volume_form.specs.Marked.{entry_card, count_on};
ghost use Rattle.volume_rules.specs.Volume.{directory, volume_of};
ghost use Rattle.volume_rules.specs.Sound.{headers_in, headers_of};
ghost use Rattle.volume_rules.specs.Judged.{unless, volume_answer, form_in};
ghost use Rattle.volume_rules.specs.Converted.{few_on, holds, convert_checked};
ghost use Rattle.volume_edit.specs.Written.{convert_answer, left_by};
ghost use Rattle.volume_edit.specs.Parts.{CardFits, Listed};

use base_refusal::{NOT_OLD, Refusal, refuse};
use format_layout::CARD;
use volume_check::judging;
use volume_form::{Form, building, moving, reading};

// Writes one directory card in another form, by the header whose first card is behind `at` others; answers how many cards it has.
fn convert_card(buffer: &mut [u8], from: Form, to: Form, at: usize, card: usize) -> usize
    requires { CardFits (row_of from) (row_of to) at card buffer.old }
    ensures number { result ≡ count_on (row_of from) (take 80 (drop (80 * card) buffer.old)) }
    ensures buffer { buffer.new
        ≡ laid_at buffer.old (80 * card) (entry_card (row_of to) (drop (80 * at) buffer.old) (1 + at) result) }
{
    let place = CARD * card;
    let n = reading::count_on(from, &buffer[place..place + CARD]);
    let start = CARD * at;
    let entry = building::entry_card(to, &buffer[start..], 1 + at as u64, n);
    moving::lay(buffer, place, &entry);
    n as usize
}

// Writes the directory behind so many cards in another form.
fn convert_directory(buffer: &mut [u8], from: Form, to: Form, body: usize, count: usize)
    requires { Listed (row_of from) (row_of to) body count buffer.old }
    ensures { buffer.new
        ≡ take (80 * body) buffer.old
        ++ (directory (row_of to) 1 (headers_in (row_of from) (take (80 * body) buffer.old)
        (take (80 * count) (drop (80 * body) buffer.old)) count)
        ++ drop (80 * (body + count)) buffer.old) }
{
    let mut at = 0;
    // By number: a turn writes one card and reads cards far from it, so no iterator can hold the buffer.
    for i in 0..count {
        at += convert_card(buffer, from, to, at, body + i);
    }
}

// Whether no line of a directory has more than so many cards.
fn are_few(form: Form, most: usize, directory: &[u8]) -> bool
    ensures { result ≡ few_on (row_of form) most directory.now (length directory.now / 80) }
{
    directory
        .chunks_exact(CARD)
        .all(|card| reading::count_on(form, card) as usize <= most)
}

// Whether a form holds an accepted volume of another.
fn is_held(from: Form, to: Form, volume: &[u8], cards: usize) -> bool
    requires { volume_answer (row_of from) cards volume.now ≡ no_refusal }
    ensures { result ≡ holds (row_of to) cards (headers_of (row_of from) cards (take (80 * cards) volume.now)) }
{
    let largest = volume_form::largest_of(to);
    let most = volume_form::most_of(to);
    let front = &volume[..CARD * cards];
    cards <= most && are_few(from, largest, judging::directory_of(from, front, cards))
}

// Whether an accepted volume can be brought into another form.
fn judge_form(from: Form, to: Form, volume: &[u8], cards: usize) -> Result<(), Refusal>
    requires { volume_answer (row_of from) cards volume.now ≡ no_refusal }
    ensures { result ≡ unless (holds (row_of to) cards (headers_of (row_of from) cards (take (80 * cards) volume.now))) 21 no_refusal }
{
    if is_held(from, to, volume, cards) {
        return Ok(());
    }
    Err(refuse(NOT_OLD, 0, 0))
}

// Whether a volume can be: its own refusal first.
fn judge_convert(from: Form, to: Form, volume: &[u8], cards: usize) -> Result<(), Refusal>
    ensures { result ≡ convert_checked (row_of from) (row_of to) cards volume.now }
{
    judging::judge(from, volume, cards)?;
    judge_form(from, to, volume, cards)
}

// Writes the directory and the trailer of a volume that another form holds, and answers the number of its cards.
fn write(from: Form, to: Form, buffer: &mut [u8], cards: usize) -> usize
    requires { convert_checked (row_of from) (row_of to) cards buffer.old ≡ no_refusal }
    ensures number { result ≡ cards }
    ensures buffer { buffer.new
        ≡ volume_of (row_of to) (headers_of (row_of from) cards (take (80 * cards) buffer.old)) ++ drop (80 * cards) buffer.old }
{
    let first = judging::first_of(from, &buffer[..CARD * cards], cards);
    let count = cards - first;
    convert_directory(buffer, from, to, first - 1, count);
    let trailer = building::trailer_card(to, first as u64, count as u64);
    moving::lay(buffer, CARD * (cards - 1), &trailer);
    cards
}

// Brings a volume of one form into another.
fn convert_to(from: Form, to: Form, buffer: &mut [u8], cards: usize) -> Result<usize, Refusal>
    ensures answer { result ≡ convert_answer (row_of from) (row_of to) cards buffer.old }
    ensures buffer { buffer.new
        ≡ left_by (row_of to) (convert_answer (row_of from) (row_of to) cards buffer.old)
        (headers_of (row_of from) cards (take (80 * cards) buffer.old)) buffer.old }
{
    judge_convert(from, to, &buffer[..], cards)?;
    Ok(write(from, to, buffer, cards))
}

// Brings a volume into the wide form.
pub fn widen(buffer: &mut [u8], cards: usize) -> Result<usize, Refusal>
    ensures answer { result ≡ convert_answer (row_of (form_in cards buffer.old)) (row_of Form.Wide) cards buffer.old }
    ensures buffer { buffer.new
        ≡ left_by (row_of Form.Wide) (convert_answer (row_of (form_in cards buffer.old)) (row_of Form.Wide) cards buffer.old)
        (headers_of (row_of (form_in cards buffer.old)) cards (take (80 * cards) buffer.old)) buffer.old }
{
    let from = judging::form_of(&buffer[..], cards);
    convert_to(from, Form::Wide, buffer, cards)
}

// Brings a volume into the old form.
pub fn narrow(buffer: &mut [u8], cards: usize) -> Result<usize, Refusal>
    ensures answer { result ≡ convert_answer (row_of (form_in cards buffer.old)) (row_of Form.Old) cards buffer.old }
    ensures buffer { buffer.new
        ≡ left_by (row_of Form.Old) (convert_answer (row_of (form_in cards buffer.old)) (row_of Form.Old) cards buffer.old)
        (headers_of (row_of (form_in cards buffer.old)) cards (take (80 * cards) buffer.old)) buffer.old }
{
    let from = judging::form_of(&buffer[..], cards);
    convert_to(from, Form::Old, buffer, cards)
}
