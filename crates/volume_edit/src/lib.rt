// A volume written in its buffer: the empty one laid, a header appended. Everything is judged before the first byte is written.
#![tactic(auto)]

pub mod compact;
pub mod convert;

ghost use Rattle.base_refusal.specs.Refusals.{no_refusal};
ghost use Rattle.std.specs.Prelude.{◌≡◌, [], ◌∷◌, ◌++◌, ◌+◌, ◌-◌, ◌*◌, ◌/◌, ◌≤◌, length, take, drop};
ghost use Rattle.volume_form.specs.Moved.{laid_at, moved};
ghost use Rattle.volume_form.specs.Rows.{row_of};
ghost use Rattle.volume_rules.specs.Volume.{volume_of};
ghost use Rattle.volume_rules.specs.Sound.{headers_of};
ghost use Rattle.volume_rules.specs.Appended.{appended};
ghost use Rattle.volume_rules.specs.Judged.{form_in};
ghost use Rattle.volume_edit.specs.Written.{Fits, room_answer, append_checked, empty_answer, append_answer, left_by};

use base_refusal::{NO_CARDS_LEFT, Refusal, refuse};
use format_layout::CARD;
use volume_check::judging;
use volume_form::{Form, building, moving};

// Lays the empty volume, a trailer alone.
pub fn lay_empty(buffer: &mut [u8]) -> Result<usize, Refusal>
    ensures answer { result ≡ empty_answer buffer.old }
    ensures buffer { buffer.new ≡ left_by (row_of Form.Old) (empty_answer buffer.old) [] buffer.old }
{
    if buffer.len() / CARD == 0 {
        return Err(refuse(NO_CARDS_LEFT, 0, 0));
    }
    let trailer = building::trailer_card(Form::Old, 1, 0);
    moving::lay(buffer, 0, &trailer);
    Ok(1)
}

// The stretch moved up by the header's length, and the header laid where it stood.
fn make_room(buffer: &mut [u8], from: usize, size: usize, header: &[u8])
    requires { from + length header.now + size ≤ length buffer.old }
    ensures { buffer.new ≡ laid_at (moved buffer.old from (from + length header.now) size) from header.now }
{
    let to = from + header.len();
    moving::move_up(buffer, from, to, size);
    moving::lay(buffer, from, header);
}

// Two cards laid at a place.
fn lay_two(buffer: &mut [u8], at: usize, first: &[u8], second: &[u8])
    requires { at + length first.now + length second.now ≤ length buffer.old }
    ensures { buffer.new ≡ laid_at (laid_at buffer.old at first.now) (at + length first.now) second.now }
{
    let next = at + first.len();
    moving::lay(buffer, at, first);
    moving::lay(buffer, next, second);
}

// Lays a header in front of the directory, its directory card behind it, and the new trailer.
fn lay_header(buffer: &mut [u8], form: Form, first: usize, lines: usize, header: &[u8])
    requires { Fits form first lines header.now buffer.old }
    ensures { buffer.new ≡ appended (row_of form) first lines header.now buffer.old }
{
    let n = header.len() / CARD;
    let entry = building::entry_card(form, header, first as u64, n as u64);
    let trailer = building::trailer_card(form, (first + n) as u64, lines as u64 + 1);
    let from = CARD * (first - 1);
    let size = CARD * lines;
    make_room(buffer, from, size, header);
    lay_two(buffer, from + header.len() + size, &entry, &trailer);
}

// The header, and the room for it behind so many cards.
fn judge_header(form: Form, cards: usize, room: usize, header: &[u8]) -> Result<(), Refusal>
    requires { cards ≤ 1000000 }
    ensures { result ≡ room_answer (row_of form) cards room header.now }
{
    judging::check_header(form, header)?;
    if judging::is_stated(form, cards + header.len() / CARD + 1, room) {
        return Ok(());
    }
    Err(refuse(NO_CARDS_LEFT, 0, 0))
}

// Whether a header can be appended: the volume, the header, the room.
fn judge_append(form: Form, buffer: &[u8], cards: usize, header: &[u8]) -> Result<(), Refusal>
    ensures { result ≡ append_checked (row_of form) cards buffer.now header.now }
{
    judging::judge(form, buffer, cards)?;
    judge_header(form, cards, buffer.len() / CARD, header)
}

// Appends a header that may be, and answers the new number of cards.
fn write(form: Form, buffer: &mut [u8], cards: usize, header: &[u8]) -> usize
    requires { append_checked (row_of form) cards buffer.old header.now ≡ no_refusal }
    ensures number { result ≡ cards + length header.now / 80 + 1 }
    ensures buffer { buffer.new
        ≡ volume_of (row_of form) (headers_of (row_of form) cards (take (80 * cards) buffer.old) ++ (header.now ∷ []))
        ++ drop (80 * (cards + length header.now / 80 + 1)) buffer.old }
{
    let first = judging::first_of(form, &buffer[..CARD * cards], cards);
    lay_header(buffer, form, first, cards - first, header);
    cards + header.len() / CARD + 1
}

// Appends a header to a volume of a form.
fn append_to(form: Form, buffer: &mut [u8], cards: usize, header: &[u8]) -> Result<usize, Refusal>
    ensures answer { result ≡ append_answer (row_of form) cards buffer.old header.now }
    ensures buffer { buffer.new
        ≡ left_by (row_of form) (append_answer (row_of form) cards buffer.old header.now)
        (headers_of (row_of form) cards (take (80 * cards) buffer.old) ++ (header.now ∷ [])) buffer.old }
{
    judge_append(form, &buffer[..], cards, header)?;
    Ok(write(form, buffer, cards, header))
}

// Appends a header to a volume.
pub fn append(buffer: &mut [u8], cards: usize, header: &[u8]) -> Result<usize, Refusal>
    ensures answer { result ≡ append_answer (row_of (form_in cards buffer.old)) cards buffer.old header.now }
    ensures buffer { buffer.new
        ≡ left_by (row_of (form_in cards buffer.old)) (append_answer (row_of (form_in cards buffer.old)) cards buffer.old header.now)
        (headers_of (row_of (form_in cards buffer.old)) cards (take (80 * cards) buffer.old) ++ (header.now ∷ [])) buffer.old }
{
    let form = judging::form_of(&buffer[..], cards);
    append_to(form, buffer, cards, header)
}
