// What one pass over all cards notes: of each card its layout and whether the screen is sure of it, and the forms of coordinates
// that some cards state for others.
ghost use Rattle.std.specs.Prelude.{◌≡◌, ◌+◌, ◌<◌, length, set};
ghost use Rattle.card_screen.specs.Machine.{Built};
ghost use Rattle.header_check.specs.forms.Cards.{number_of, code_by, cards_in, layout_of};
ghost use Rattle.header_check.specs.packed.Notes.{note_count, mark, noted, told, note_at, note_card, notes_to, form_by};
ghost use Rattle.header_check.specs.Refusing.{largest};
ghost use Rattle.header_check.specs.packed.Noted.{card_note, layout_in, is_sure, is_flagged, with_flag, noted_to};

use card_screen::tables;
use card_screen::tables::TABLE;
use format_code::Code;
use format_layout::names::{H00X8, H00X9, H0100, H0101, H5000};
use format_layout::{CARD, CARDS, CODE, Form};

// The number that stands for a passed code, and behind it the one for an unknown code: no layout has either.
pub const UNREAD: usize = 62;

const UNKNOWN: usize = UNREAD + 1;

// A note for the grid and one for each byte that names a vessel: bytes are compared, so that nobody has to argue that only digits
// matter.
pub const NOTES: usize = 257;

// Added to a layout's number where the screen is sure of a card.
const SURE: u8 = 128;

// Added by whoever reads the notes and has something to remember of a card.
const FLAG: u8 = 64;

// What a form's note says: no card seen, form 0, form 1, or it cannot be known.
const NONE: u8 = 0;

const ANGLES: u8 = 1;

const GRID: u8 = 2;

const NOT_KNOWN: u8 = 3;

// The number of the layout that reads a card with a code.
fn number_of(code: Code) -> usize
    ensures { result ≡ number_of code }
{
    match code {
        Code::Read(k) => k,
        Code::Passed => UNREAD,
        Code::Unknown => UNKNOWN,
    }
}

// The number of the layout that reads a card.
pub fn layout_of(card: &[u8]) -> usize
    ensures { result ≡ layout_of card.now }
{
    if card.len() < CODE {
        return UNKNOWN;
    }
    number_of(format_code::code_of(&card[..CODE]))
}

// The code that a layout's number stands for.
#[tactic(auto, unfolding(crate::specs::forms::Cards::code_by))]
pub fn code_by(layout: usize) -> Code
    ensures { result ≡ code_by layout }
{
    match layout {
        UNREAD => Code::Passed,
        UNKNOWN => Code::Unknown,
        k => Code::Read(k),
    }
}

// What is noted of a card: the number of its layout, with SURE added where the screen is sure of it.
fn card_note(table: &[u64; TABLE], card: &[u8], layout: usize) -> u8
    requires built { Built table.now }
    requires card_len { (length card.now ≡ 80) × (layout ≡ layout_of card.now) }
    ensures { result ≡ card_note card.now }
{
    if card_screen::is_fine(table, card, layout) {
        return SURE + layout as u8;
    }
    layout as u8
}

// The layout that a card's note tells.
pub fn layout_in(note: u8) -> usize
    ensures { result ≡ layout_in note }
{
    usize::from(note % FLAG)
}

// Whether it tells that the screen is sure of the card.
pub fn is_sure(note: u8) -> bool
    ensures { result ≡ is_sure note }
{
    SURE <= note
}

// Whether it has a flag.
#[tactic(auto, unfolding(crate::specs::packed::Noted::is_flagged))]
pub fn is_flagged(note: u8) -> bool
    ensures { result ≡ is_flagged note }
{
    FLAG <= note % SURE
}

// The note with a flag.
#[tactic(auto, unfolding(crate::specs::packed::Noted::with_flag, crate::specs::packed::Noted::is_flagged))]
pub fn with_flag(note: u8) -> u8
    ensures { result ≡ with_flag note }
{
    if is_flagged(note) {
        return note;
    }
    note + FLAG
}

// Puts a card's note in its place, if there is room.
fn put_note(cards: &mut [u8; CARDS], place: usize, note: u8)
    requires { length cards.old ≡ largest }
    ensures { cards.new ≡ set cards.old place note }
{
    if place < CARDS {
        cards[place] = note;
    }
}

// The note of a form column's byte.
#[tactic(auto, unfolding(crate::specs::packed::Notes::mark))]
fn mark_of(byte: u8) -> u8
    ensures { result ≡ mark byte }
{
    match byte {
        b'0' => ANGLES,
        b'1' => GRID,
        _ => NOT_KNOWN,
    }
}

// A note when one more card is seen.
#[tactic(auto, unfolding(crate::specs::packed::Notes::noted))]
fn note_again(old: u8, byte: u8) -> u8
    ensures { result ≡ noted old byte }
{
    if old != NONE {
        return NOT_KNOWN;
    }
    mark_of(byte)
}

// The form that a note says.
#[tactic(auto, unfolding(crate::specs::packed::Notes::told))]
fn form_told(note: u8) -> Form
    ensures { result ≡ told note }
{
    match note {
        ANGLES => Form::Angles,
        GRID => Form::Grid,
        _ => Form::Unknown,
    }
}

// Where a vessel's note stands: the grid's stands before them.
fn place_of(vessel: u8) -> usize
    ensures { (result ≡ 1 + vessel) × (result < note_count) }
{
    1 + usize::from(vessel)
}

#[tactic(auto, unfolding(crate::specs::packed::Notes::note_at))]
fn note(notes: &mut [u8; NOTES], place: usize, byte: u8)
    requires { place < note_count }
    ensures { notes.new ≡ note_at notes.old place byte }
{
    notes[place] = note_again(notes[place], byte);
}

// Notes the form that a card states, if it states one.
#[tactic(auto, unfolding(crate::specs::packed::Notes::note_card, crate::specs::forms::Cards::byte_in))]
fn note_card(notes: &mut [u8; NOTES], card: &[u8], layout: usize)
    requires { layout ≡ layout_of card.now }
    ensures { notes.new ≡ note_card notes.old card.now }
{
    match layout {
        H00X8 => note(
            notes,
            place_of(base_lists::byte_at(card, 29)),
            base_lists::byte_at(card, 31),
        ),
        H0100 => note(notes, 0, base_lists::byte_at(card, 20)),
        _ => {}
    }
}

// The notes of the forms that the cards of a header state; what is noted of each card goes into the lent array, as far as it has
// room.
pub fn notes_of(header: &[u8], cards: &mut [u8; CARDS]) -> [u8; NOTES]
    requires { length cards.old ≡ largest }
    ensures forms { result ≡ notes_to header.now (cards_in header.now) }
    ensures cards { cards.new ≡ noted_to header.now cards.old (cards_in header.now) }
{
    let table = tables::table();
    let mut notes = [NONE; NOTES];
    for (place, card) in header.chunks_exact(CARD).enumerate() {
        let layout = layout_of(card);
        put_note(cards, place, card_note(&table, card, layout));
        note_card(&mut notes, card, layout);
    }
    notes
}

// The form of a card's coordinates, by its layout and the header's notes.
#[tactic(auto, unfolding(crate::specs::packed::Notes::form_by, crate::specs::forms::Cards::byte_in))]
pub fn form_by(notes: &[u8; NOTES], layout: usize, card: &[u8]) -> Form
    ensures form { result ≡ form_by notes.now layout card.now }
{
    match layout {
        H00X8 => form_told(mark_of(base_lists::byte_at(card, 31))),
        H00X9 => form_told(notes[place_of(base_lists::byte_at(card, 6))]),
        H0101 => form_told(notes[0]),
        H5000 => form_told(mark_of(base_lists::byte_at(card, 28))),
        _ => Form::Unknown,
    }
}
