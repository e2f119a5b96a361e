// The refusal of a whole header: its length, its cards one by one, and what is missing of its opening block.
#![tactic(auto)]

pub mod forms;

ghost use Rattle.std.specs.Prelude.{◌≡◌, cond, ◌-◌, ◌≤◌, length, get_or};
ghost use Rattle.card_screen.specs.Roles.{sure as is_sure_of};
ghost use Rattle.header_check.specs.forms.Cards.{cards_in, layout_of};
ghost use Rattle.header_check.specs.packed.Notes.{notes_to};
ghost use Rattle.header_check.specs.packed.Noted.{Noted, noted_for};
ghost use Rattle.header_check.specs.Opening.{code_number, goes_on};
ghost use Rattle.card_check.specs.Verdicts.{offending};
ghost use Rattle.header_check.specs.Refusing.{is_unknown, placed_verdict, end_verdict, answer_for, cards_answer, largest, refusal_of};

use crate::forms::NOTES;
use base_refusal::{EMPTY, MISPLACED, ODD_LENGTH, Refusal, TOO_MANY, UNKNOWN, UNPRINTABLE, refuse};
use card_check::Offence;
use format_code::Code;
use format_layout::names::{H00X8, H00X9};
use format_layout::{CARD, CARDS, Form};
use value_text::printable;

// The cards H0000 to H0007, which come first.
const OPENING: usize = 8;

// The number that the byte at i is as a digit, 0 for one below the digits.
fn digit_at(card: &[u8], i: usize) -> usize
    ensures { (result ≡ get_or card.now i 0 - 48) × (result ≤ 207) }
{
    usize::from(base_lists::byte_at(card, i).saturating_sub(b'0'))
}

// The number in a card's code.
#[tactic(auto, unfolding(crate::specs::Opening::code_number, crate::specs::forms::Cards::byte_in))]
pub fn code_number(card: &[u8]) -> usize
    ensures { result ≡ code_number card.now }
{
    1000 * digit_at(card, 1) + 100 * digit_at(card, 2) + 10 * digit_at(card, 3) + digit_at(card, 4)
}

// Whether a card goes on with the opening block at a place, from 0, behind a card with the code number `before`.
#[tactic(auto, using(std::proofs::lemmas::Bool::Decides::nat_tests), unfolding(crate::specs::Opening::goes_on))]
fn goes_on(place: usize, layout: usize, before: usize, number: usize) -> bool
    ensures { result ≡ goes_on place layout before number }
{
    if place < OPENING {
        return layout == place;
    }
    matches!(layout, H00X8 | H00X9) && before <= number
}

fn is_unknown(code: Code) -> bool
    ensures { result ≡ is_unknown code }
{
    matches!(code, Code::Unknown)
}

// A card out of place: a 5 comes first.
fn judge_misplaced(code: Code) -> Result<(), Offence>
    ensures { result ≡ cond (is_unknown code) (Err (offending 5 1)) (Err (offending 6 1)) }
{
    if is_unknown(code) {
        return Err(Offence {
            number: UNKNOWN,
            column: 1,
        });
    }
    Err(Offence {
        number: MISPLACED,
        column: 1,
    })
}

// A card in its place or not, by its layout: one in its place that the screen is sure of needs no judging.
fn judge_placed(
    card: &[u8],
    layout: usize,
    sure: bool,
    form: Form,
    placed: bool,
) -> Result<(), Offence>
    requires { (length card.now ≡ 80) × (layout ≡ layout_of card.now) × (sure ≡ is_sure_of layout card.now) }
    ensures { result ≡ placed_verdict card.now form placed }
{
    let bad = printable::first_bad(card);
    if bad < CARD {
        return Err(Offence {
            number: UNPRINTABLE,
            column: bad + 1,
        });
    }
    if placed & sure {
        return Ok(());
    }
    let code = forms::code_by(layout);
    if placed {
        return card_check::judge_by(card, code, form);
    }
    judge_misplaced(code)
}

// The place past the last card has a verdict like any card, so that the first offence decides for a whole header.
#[tactic(auto, unfolding(crate::specs::Refusing::end_verdict))]
fn judge_end(line: bool) -> Result<(), Offence>
    ensures { result ≡ end_verdict line }
{
    if line {
        return Ok(());
    }
    Err(Offence {
        number: MISPLACED,
        column: 1,
    })
}

// The answer for a verdict on the card with a number, from 1.
#[tactic(auto, unfolding(crate::specs::Refusing::answer_for))]
fn answer_for(verdict: Result<(), Offence>, card: usize) -> Result<(), Refusal>
    ensures { result ≡ answer_for verdict card }
{
    match verdict {
        Ok(()) => Ok(()),
        Err(Offence { number, column }) => Err(refuse(number, card, column)),
    }
}

// All cards, with what is noted of them and of the forms that they state: the first offence decides. `inside` says that all cards
// so far belong to the opening block, `line` that an H00@8 is among those that do.
fn check_cards(header: &[u8], cards: &[u8; CARDS], notes: &[u8; NOTES]) -> Result<(), Refusal>
    requires noted { Noted header.now (cards_in header.now) cards.now }
    requires header_bound { cards_in header.now ≤ largest }
    requires notes_value { notes.now ≡ notes_to header.now (cards_in header.now) }
    ensures { result ≡ cards_answer header.now }
{
    let mut inside = true;
    let mut before = 0;
    let mut line = false;
    for (place, card) in header.chunks_exact(CARD).enumerate() {
        let note = cards[place];
        let layout = forms::layout_in(note);
        let form = forms::form_by(notes, layout, card);
        let number = code_number(card);
        inside &= goes_on(place, layout, before, number);
        let placed = inside | (line & (H00X9 < layout));
        let verdict = judge_placed(card, layout, forms::is_sure(note), form, placed);
        let Ok(()) = verdict else {
            return answer_for(verdict, place + 1);
        };
        before = number;
        line |= inside & (layout == H00X8);
    }
    answer_for(judge_end(line), header.len() / CARD + 1)
}

// The answer to a header of whatever length and content, with its cards noted in the lent array unless its length refuses it.
#[tactic(auto, unfolding(crate::specs::Refusing::refusal_of, crate::specs::packed::Noted::noted_for, crate::specs::forms::Cards::cards_in))]
pub fn check_noting(header: &[u8], cards: &mut [u8; CARDS]) -> Result<(), Refusal>
    requires { length cards.old ≡ largest }
    ensures answer { result ≡ refusal_of header.now }
    ensures cards { cards.new ≡ noted_for header.now cards.old }
{
    if header.is_empty() {
        return Err(refuse(EMPTY, 0, 0));
    }
    if header.len() % CARD != 0 {
        return Err(refuse(ODD_LENGTH, 0, 0));
    }
    if CARDS < header.len() / CARD {
        return Err(refuse(TOO_MANY, 0, 0));
    }
    let notes = forms::notes_of(header, cards);
    check_cards(header, cards, &notes)
}

// The same where nobody asks what was noted.
pub fn check(header: &[u8]) -> Result<(), Refusal>
    ensures { result ≡ refusal_of header.now }
{
    let mut cards = [0u8; CARDS];
    check_noting(header, &mut cards)
}
