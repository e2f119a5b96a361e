// Whether a directory covers some cards, card by card: each directory card is compared with the one that would be written.
ghost use Rattle.std.specs.Prelude.{◌≡◌, ◌+◌, ◌*◌, ◌/◌, ◌≤◌, ◌<◌, ◌^◌, length, unwrap_or, IfSome};
ghost use Rattle.volume_form.specs.Rows.{row_of};
ghost use Rattle.volume_rules.specs.Sound.{mixed, covers};
ghost use Rattle.volume_check.specs.Steps.{entered};

use format_layout::CARD;
use volume_form::{Form, building, reading};

// How many cards a directory card tells, where it is that of the header that begins the rest.
fn count_of(form: Form, at: u64, rest: &[u8], card: &[u8]) -> Option<u64>
    requires { (length card.now ≡ 80) × (at + length rest.now / 80 < 10 ^ (row_of form).width) }
    ensures told { unwrap_or result 0 ≡ entered (row_of form) at rest.now card.now }
    ensures within { IfSome result (λ n. (1 ≤ n) × (80 * n ≤ length rest.now)) }
{
    let n = reading::count_on(form, card);
    if n == 0 {
        return None;
    }
    let room = (rest.len() / CARD) as u64;
    if room < n {
        return None;
    }
    let expected = building::entry_card(form, rest, at, n);
    (card == expected.as_slice()).then_some(n)
}

// Whether the directory covers the body, card by card.
pub fn covered_by(form: Form, body: &[u8], directory: &[u8]) -> bool
    requires { 1 + length body.now / 80 < 10 ^ (row_of form).width }
    ensures { result ≡ covers (row_of form) 1 body.now directory.now (length directory.now / 80) }
{
    let mut rest = body;
    let mut at = 1;
    for card in directory.chunks_exact(CARD) {
        let Some(n) = count_of(form, at, rest, card) else {
            return false;
        };
        rest = &rest[CARD * n as usize..];
        at += n;
    }
    rest.is_empty()
}

// Whether a directory has a card of the other form.
pub fn is_mixed(form: Form, directory: &[u8]) -> bool
    ensures { result ≡ mixed (row_of form).other directory.now (length directory.now / 80) }
{
    let other = volume_form::other_code(form);
    directory
        .chunks_exact(CARD)
        .any(|card| card.starts_with(&other))
}
