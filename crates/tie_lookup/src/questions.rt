// The question about a key, put to a header that was accepted.
ghost use Rattle.base_refusal.specs.Refusals.{no_refusal};
ghost use Rattle.std.specs.Prelude.{◌≡◌};
ghost use Rattle.header_check.specs.Refusing.{refusal_of};
ghost use Rattle.tie_rules.specs.packed.Numbers.{packed};
ghost use Rattle.tie_lookup.specs.questions.Questions.{is_class, key_offered, key_answer};

use crate::search;
use base_refusal::{NO_SUCH, Refusal, refuse};
use format_layout::CARD;
use tie_rules::{CLASSES, offered};

// A key that is offered; the bytes of a text are lent beside it.
#[derive(Clone, Copy)]
pub enum Key {
    Whole(i64),
    Pair(i64, i64),
    Text,
}

// What a header says of a key: no definition, the card and the column of the only one, or the number of several; or the refusal.
#[derive(Clone, Copy)]
pub enum Defined {
    None,
    Only(usize, usize),
    Several(usize),
}

// Whether there is such a class of keys.
#[tactic(auto, unfolding(crate::specs::questions::Questions::is_class))]
fn is_class(class: u64) -> bool
    ensures { result ≡ is_class class }
{
    (1..=CLASSES).contains(&class)
}

// An offered key as one number, 0 where no card can bear it.
#[tactic(auto, unfolding(crate::specs::questions::Questions::key_offered))]
fn number_of(class: u64, key: Key, text: &[u8]) -> u64
    ensures { result ≡ packed class (key_offered class key text.now) }
{
    match key {
        Key::Whole(number) => offered::packed_whole(class, number),
        Key::Pair(first, second) => offered::packed_pair(class, first, second),
        Key::Text => offered::packed_text(class, text),
    }
}

// What an accepted header says of a key of a class, or 13 where there is no such class.
pub fn answer(header: &[u8], class: u64, key: Key, text: &[u8]) -> Result<Defined, Refusal>
    requires { refusal_of header.now ≡ no_refusal }
    ensures { result ≡ key_answer header.now class key text.now }
{
    if !is_class(class) {
        return Err(refuse(NO_SUCH, 0, 0));
    }
    let found = search::in_header(header, number_of(class, key, text));
    let number = found.number;
    if number == 0 {
        return Ok(Defined::None);
    }
    if number == 1 {
        let place = found.only - 1;
        return Ok(Defined::Only(place / CARD + 1, place % CARD + 1));
    }
    Ok(Defined::Several(number))
}
