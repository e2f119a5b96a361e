// A volume read: how many lines it has, and the line at a place as a part of it. Every answer is about the whole volume first.
#![tactic(auto)]

pub mod covering;
pub mod judging;

ghost use Rattle.base_refusal.specs.Refusals.{no_refusal};
ghost use Rattle.std.specs.Prelude.{◌≡◌, true, ◌+◌, ◌-◌, ◌*◌, ◌/◌, ◌≤◌, length, take, drop};
ghost use Rattle.volume_form.specs.Rows.{row_of};
ghost use Rattle.volume_form.specs.Marked.{name_of, sequence_of};
ghost use Rattle.volume_rules.specs.Sound.{first_of, headers_of};
ghost use Rattle.volume_rules.specs.Judged.{volume_answer, form_in};
ghost use Rattle.volume_check.specs.Answers.{placed, lines_of, found_of, part_of, line_of};
ghost use Rattle.volume_check.specs.Steps.{told_at, inside};

use base_refusal::{NO_SUCH, Refusal, refuse};
use format_layout::CARD;
use volume_form::{Form, NAME, NAME_END, SEQUENCE, SEQUENCE_END, reading};

// A line's first card, how many cards it has, and its directory card, all counted from 1.
#[derive(Clone, Copy, Debug, PartialEq, Eq)]
pub struct LinePlace {
    pub first: usize,
    pub cards: usize,
    pub entry: usize,
}

// How many lines an accepted volume has.
fn count_in(form: Form, volume: &[u8], cards: usize) -> usize
    requires { volume_answer (row_of form) cards volume.now ≡ no_refusal }
    ensures { result ≡ length (headers_of (row_of form) cards (take (80 * cards) volume.now)) }
{
    cards - judging::first_of(form, &volume[..CARD * cards], cards)
}

// How many lines a volume has.
pub fn lines(volume: &[u8], cards: usize) -> Result<usize, Refusal>
    ensures { result ≡ lines_of (row_of (form_in cards volume.now)) cards volume.now }
{
    let form = judging::form_of(volume, cards);
    judging::judge(form, volume, cards)?;
    Ok(count_in(form, volume, cards))
}

// The line that a directory, which begins at a card, tells at a place.
fn line_at(form: Form, directory: &[u8], first: usize, place: usize) -> Result<LinePlace, Refusal>
    requires { first ≤ 1000000 }
    ensures { result ≡ told_at (row_of form) directory.now first place }
{
    if place == 0 {
        return Err(refuse(NO_SUCH, 0, 0));
    }
    if directory.len() / CARD < place {
        return Err(refuse(NO_SUCH, 0, 0));
    }
    let from = CARD * (place - 1);
    let card = &directory[from..from + CARD];
    let start = reading::start_on(form, card) as usize;
    let number = reading::count_on(form, card) as usize;
    Ok(LinePlace {
        first: start,
        cards: number,
        entry: first + place - 1,
    })
}

// The line at a place of an accepted volume.
fn line_in(form: Form, volume: &[u8], cards: usize, place: usize) -> Result<LinePlace, Refusal>
    requires { volume_answer (row_of form) cards volume.now ≡ no_refusal }
    ensures { result
        ≡ placed (headers_of (row_of form) cards (take (80 * cards) volume.now)) (first_of (row_of form) cards (take (80 * cards) volume.now)) place }
{
    let front = &volume[..CARD * cards];
    let first = judging::first_of(form, front, cards);
    line_at(
        form,
        judging::directory_of(form, front, cards),
        first,
        place,
    )
}

// Where the line at a place stands, counted from 1.
pub fn find_line(volume: &[u8], cards: usize, place: usize) -> Result<LinePlace, Refusal>
    ensures { result ≡ found_of (row_of (form_in cards volume.now)) cards volume.now place }
{
    let form = judging::form_of(volume, cards);
    judging::judge(form, volume, cards)?;
    line_in(form, volume, cards, place)
}

// Some cards, the first of them counted from 1.
fn cards_from<'a>(volume: &'a [u8], first: usize, number: usize) -> &'a [u8]
    requires { (1 ≤ first) × (80 * (first - 1) + 80 * number ≤ length volume.now) }
    ensures { result.now ≡ take (80 * number) (drop (80 * (first - 1)) volume.now) }
{
    let from = CARD * (first - 1);
    let size = CARD * number;
    &volume[from..from + size]
}

// The part of a volume that an answer tells.
fn part_of<'a>(volume: &'a [u8], found: Result<LinePlace, Refusal>) -> &'a [u8]
    requires { inside found (length volume.now) ≡ true }
    ensures { result.now ≡ part_of found volume.now }
{
    match found {
        Ok(line) => cards_from(volume, line.first, line.cards),
        Err(_) => &volume[..0],
    }
}

// The line at a place, as a part of the volume; empty on a refusal.
pub fn line<'a>(volume: &'a [u8], cards: usize, place: usize) -> &'a [u8]
    ensures { result.now ≡ line_of (row_of (form_in cards volume.now)) cards volume.now place }
{
    let found = find_line(volume, cards, place);
    part_of(volume, found)
}

// The name of the line at a place, as a part of the volume; empty on a refusal.
pub fn name<'a>(volume: &'a [u8], cards: usize, place: usize) -> &'a [u8]
    ensures { result.now ≡ name_of (line_of (row_of (form_in cards volume.now)) cards volume.now place) }
{
    let found = line(volume, cards, place);
    if found.is_empty() {
        return found;
    }
    &found[NAME..NAME_END]
}

// The sequence number of the line at a place, as a part of the volume; empty on a refusal.
pub fn sequence<'a>(volume: &'a [u8], cards: usize, place: usize) -> &'a [u8]
    ensures { result.now ≡ sequence_of (line_of (row_of (form_in cards volume.now)) cards volume.now place) }
{
    let found = line(volume, cards, place);
    if found.is_empty() {
        return found;
    }
    &found[SEQUENCE..SEQUENCE_END]
}
