// One pass over the cards of a header that puts every definition into the store.
ghost use Rattle.std.specs.Prelude.{◌≡◌, ◌+◌, ◌≤◌, ◌<◌, replicate};
ghost use Rattle.header_check.specs.forms.Cards.{cards_in, layout_of};
ghost use Rattle.header_check.specs.Refusing.{largest};
ghost use Rattle.header_check.specs.packed.Noted.{Noted};
ghost use Rattle.tie_store.specs.Store.{on_card, room, link_room, count_in, Linked};
ghost use Rattle.tie_check.specs.packed.Gathered.{store, with_number, with_slots, gathered};

use crate::tags;
use format_layout::{CARD, CARDS};
use header_check::forms;
use tie_rules::{SLOTS, keys};
use tie_store::{LINKS, ROOM};

// One definition, by its number; 0 is none.
fn gather_number(keys: &mut [u64; ROOM], links: &mut [u16; LINKS], number: u64, tag: u16)
    requires linked { Linked keys.old links.old }
    requires links_bound { (number ≡ 0 → ⊥) → count_in links.old < room }
    ensures keys { keys.new ≡ (with_number (store keys.old links.old) number tag).keys }
    ensures links { links.new ≡ (with_number (store keys.old links.old) number tag).links }
{
    if number == 0 {
        return;
    }
    tie_store::add(keys, links, number, tag);
}

// The definitions on a card, which share a tag.
fn gather_card(
    keys: &mut [u64; ROOM],
    links: &mut [u16; LINKS],
    card: &[u8],
    layout: usize,
    tag: u16,
)
    requires layout_value { layout ≡ layout_of card.now }
    requires linked { Linked keys.old links.old }
    requires on_card_bound { count_in links.old + on_card ≤ room }
    ensures keys { keys.new ≡ (with_slots (store keys.old links.old) card.now tag 5).keys }
    ensures links { links.new ≡ (with_slots (store keys.old links.old) card.now tag 5).links }
{
    // A loop: it changes the store, and ends at the first slot without a row.
    for slot in 0..SLOTS {
        let row = tie_rules::tie_of(layout, slot + 1);
        if row == 0 {
            return;
        }
        gather_number(keys, links, keys::defined_by(card, row), tag);
    }
}

// The definitions of a header with its cards noted, in arrays of zeros.
pub fn gather(header: &[u8], cards: &[u8; CARDS], keys: &mut [u64; ROOM], links: &mut [u16; LINKS])
    requires header_bound { cards_in header.now ≤ largest }
    requires noted { Noted header.now (cards_in header.now) cards.now }
    requires keys_value { keys.old ≡ replicate room 0 }
    requires links_value { links.old ≡ replicate link_room 0 }
    ensures keys { keys.new ≡ (gathered header.now).keys }
    ensures links { links.new ≡ (gathered header.now).links }
{
    for (place, card) in header.chunks_exact(CARD).enumerate() {
        let layout = forms::layout_in(cards[place]);
        let tag = tags::tag_for(card, layout, place);
        gather_card(keys, links, card, layout, tag);
    }
}
