// Flags the notes of cards whose definitions share a key, so that all other definitions need not be looked up again.
ghost use Rattle.std.specs.Prelude.{◌≡◌, ◌<◌, length};
ghost use Rattle.header_check.specs.Refusing.{largest};
ghost use Rattle.header_check.specs.packed.Noted.{flagged};
ghost use Rattle.tie_store.specs.Store.{count_in, Linked};
ghost use Rattle.tie_check.specs.packed.Numbers.{card_told};
ghost use Rattle.tie_check.specs.packed.Shared.{flagged_by, flagged_to};

use crate::tags;
use format_layout::CARDS;
use header_check::forms;
use tie_store::{LINKS, ROOM};

// The card of a definition, by its tag.
fn flag(cards: &mut [u8; CARDS], tag: u16)
    requires { length cards.old ≡ largest }
    ensures { cards.new ≡ flagged cards.old (card_told tag) }
{
    let place = tags::card_in(tag);
    cards[place] = forms::with_flag(cards[place]);
}

// The card of an entry of the store and that of the one before it with its key, if there is one.
fn flag_entry(cards: &mut [u8; CARDS], keys: &[u64; ROOM], links: &[u16; LINKS], i: usize)
    requires cards_len { length cards.old ≡ largest }
    requires linked { Linked keys.now links.now }
    requires i_bound { i < count_in links.now }
    ensures { cards.new ≡ flagged_by cards.old keys.now links.now i }
{
    let before = tie_store::find_before(keys, links, i);
    if before == 0 {
        return;
    }
    flag(cards, tie_store::tag_of(links, i));
    flag(cards, tie_store::tag_of(links, before - 1));
}

// The cards of all entries that share a key.
pub fn flag_shared(cards: &mut [u8; CARDS], keys: &[u64; ROOM], links: &[u16; LINKS])
    requires cards_len { length cards.old ≡ largest }
    requires linked { Linked keys.now links.now }
    ensures { cards.new ≡ flagged_to cards.old keys.now links.now (count_in links.now) }
{
    // By number: the store is asked for an entry by its number, in two arrays.
    for i in 0..tie_store::entries_in(links) {
        flag_entry(cards, keys, links, i);
    }
}
