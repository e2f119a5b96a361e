// What is said of a volume: the stated number, the trailer, the directory, and then each header in turn.
ghost use Rattle.std.specs.Prelude.{◌≡◌, true, not, ◌+◌, ◌-◌, ◌*◌, ◌/◌, ◌≤◌, ◌<◌, ◌^◌, length};
ghost use Rattle.volume_form.specs.Rows.{row_of};
ghost use Rattle.volume_rules.specs.Sound.{points, mixed, covers, headers_in, last_card, first_of, body_of, directory_of};
ghost use Rattle.volume_rules.specs.Judged.{unless, stated, header_answer, headers_answer, cards_answer, volume_answer, form_in};
ghost use Rattle.volume_check.specs.Steps.{Cards, Trailed};

use crate::covering;
use base_refusal::{NO_DIRECTORY, NO_TRAILER, Refusal, TOO_MANY, refuse};
use format_layout::CARD;
use volume_form::{Form, building, reading};

// The answer to a header in a volume.
pub fn check_header(form: Form, header: &[u8]) -> Result<(), Refusal>
    ensures { result ≡ header_answer (row_of form) header.now }
{
    let largest = volume_form::largest_of(form);
    if header.len() % CARD == 0 && largest < header.len() / CARD {
        return Err(refuse(TOO_MANY, 0, 0));
    }
    header_check::check(header)
}

// Headers in turn: the first refusal decides.
fn check_headers(form: Form, body: &[u8], directory: &[u8]) -> Result<(), Refusal>
    requires { covers (row_of form) 1 body.now directory.now (length directory.now / 80) ≡ true }
    ensures { result
        ≡ headers_answer (row_of form) (headers_in (row_of form) body.now directory.now (length directory.now / 80)) }
{
    let mut rest = body;
    for card in directory.chunks_exact(CARD) {
        let n = reading::count_on(form, card) as usize;
        let (header, behind) = rest.split_at(CARD * n);
        check_header(form, header)?;
        rest = behind;
    }
    Ok(())
}

// The directory and the headers; a card of the other form comes before all else.
fn judge_parts(form: Form, body: &[u8], directory: &[u8]) -> Result<(), Refusal>
    requires { 1 + length body.now / 80 < 10 ^ (row_of form).width }
    ensures { result
        ≡ unless (not (mixed (row_of form).other directory.now (length directory.now / 80))) 18
        (unless (covers (row_of form) 1 body.now directory.now (length directory.now / 80)) 19
        (headers_answer (row_of form) (headers_in (row_of form) body.now directory.now (length directory.now / 80)))) }
{
    if covering::is_mixed(form, directory) {
        return Err(refuse(NO_TRAILER, 0, 0));
    }
    if covering::covered_by(form, body, directory) {
        return check_headers(form, body, directory);
    }
    Err(refuse(NO_DIRECTORY, 0, 0))
}

// Whether a card is the trailer of a volume of so many cards.
fn is_trailer(form: Form, cards: u64, card: &[u8]) -> bool
    requires { (length card.now ≡ 80) × (cards < 10 ^ (row_of form).width) }
    ensures { result ≡ points (row_of form) cards card.now }
{
    let first = reading::first_on(form, card);
    if first == 0 {
        return false;
    }
    if cards < first {
        return false;
    }
    let expected = building::trailer_card(form, first, cards - first);
    card == expected.as_slice()
}

// The last card.
fn last_card<'a>(volume: &'a [u8], cards: usize) -> &'a [u8]
    requires { Cards cards volume.now }
    ensures { result.now ≡ last_card cards volume.now }
{
    let from = CARD * (cards - 1);
    &volume[from..]
}

// The first directory card, as the trailer tells it.
pub fn first_of(form: Form, volume: &[u8], cards: usize) -> usize
    requires { Cards cards volume.now }
    ensures { result ≡ first_of (row_of form) cards volume.now }
{
    reading::first_on(form, last_card(volume, cards)) as usize
}

// The headers' cards.
pub fn body_of<'a>(form: Form, volume: &'a [u8], cards: usize) -> &'a [u8]
    requires { Trailed (row_of form) cards volume.now }
    ensures { result.now ≡ body_of (row_of form) cards volume.now }
{
    let first = first_of(form, volume, cards);
    let end = CARD * (first - 1);
    &volume[..end]
}

// The directory cards.
pub fn directory_of<'a>(form: Form, volume: &'a [u8], cards: usize) -> &'a [u8]
    requires { Trailed (row_of form) cards volume.now }
    ensures { result.now ≡ directory_of (row_of form) cards volume.now }
{
    let first = first_of(form, volume, cards);
    let from = CARD * (first - 1);
    let end = CARD * (cards - 1);
    &volume[from..end]
}

// Whether the last card is such a trailer.
fn is_trailed(form: Form, volume: &[u8], cards: usize) -> bool
    requires { Cards cards volume.now × (cards ≤ (row_of form).most) }
    ensures { result ≡ points (row_of form) cards (last_card cards volume.now) }
{
    is_trailer(form, cards as u64, last_card(volume, cards))
}

// The cards of a volume of no more than the form allows.
fn judge_cards(form: Form, volume: &[u8], cards: usize) -> Result<(), Refusal>
    requires { Cards cards volume.now × (cards ≤ (row_of form).most) }
    ensures { result ≡ cards_answer (row_of form) cards volume.now }
{
    if is_trailed(form, volume, cards) {
        let body = body_of(form, volume, cards);
        let directory = directory_of(form, volume, cards);
        return judge_parts(form, body, directory);
    }
    Err(refuse(NO_TRAILER, 0, 0))
}

// Whether a form allows so many cards, and a buffer of so many holds them.
pub fn is_stated(form: Form, cards: usize, room: usize) -> bool
    ensures { result ≡ stated (row_of form) cards room }
{
    let most = volume_form::most_of(form);
    1 <= cards && cards <= most && cards <= room
}

// A stated number of cards at the front of a buffer.
pub fn judge(form: Form, buffer: &[u8], cards: usize) -> Result<(), Refusal>
    ensures { result ≡ volume_answer (row_of form) cards buffer.now }
{
    if is_stated(form, cards, buffer.len() / CARD) {
        return judge_cards(form, &buffer[..CARD * cards], cards);
    }
    Err(refuse(NO_TRAILER, 0, 0))
}

// The form that the code of the last card tells; what has no such card is judged as an old volume.
pub fn form_of(buffer: &[u8], cards: usize) -> Form
    ensures { result ≡ form_in cards buffer.now }
{
    if cards == 0 {
        return Form::Old;
    }
    if buffer.len() / CARD < cards {
        return Form::Old;
    }
    let code = volume_form::trailer_code(Form::Wide);
    let from = CARD * (cards - 1);
    if buffer[from..].starts_with(&code) {
        return Form::Wide;
    }
    Form::Old
}
