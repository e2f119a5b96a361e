// All broken ties of a header, in order, in a lent list as far as they fit.
ghost use Rattle.base_refusal.specs.Refusals.{no_refusal};
ghost use Rattle.std.specs.Prelude.{◌≡◌, ◌+◌, ◌*◌, ◌<◌, ◌≤◌, length};
ghost use Rattle.base_lists.specs.Laid.{laid};
ghost use Rattle.tie_rules.specs.Faults.{kinds, faults, entry_size, entries};
ghost use Rattle.header_check.specs.forms.Cards.{cards_in};
ghost use Rattle.header_check.specs.Refusing.{refusal_of};
ghost use Rattle.header_check.specs.packed.Noted.{Noted};
ghost use Rattle.tie_check.specs.packed.Gathered.{gathered};
ghost use Rattle.tie_check.specs.packed.Totals.{totals_of};
ghost use Rattle.tie_check.specs.packed.Shared.{flagged_all};
ghost use Rattle.tie_check.specs.packed.Asked.{Flagged};
ghost use Rattle.tie_check.specs.packed.Listed.{card_entries};
ghost use Rattle.tie_check.specs.packed.Stored.{stored_all};

use crate::totals::Totals;
use crate::{begins, entries, flagging, gather, judging, totals};
use format_layout::{CARD, CARDS};
use header_check::forms;
use tie_rules::keys;
use tie_store::{LINKS, ROOM};

// No walk over a card takes more steps.
const STEPS: usize = 81;

// The faults of the card with a number, from 0.
fn list_card(
    list: &mut [u32],
    found: usize,
    header: &[u8],
    cards: &[u8; CARDS],
    store: &[u64; ROOM],
    links: &[u16; LINKS],
    totals: Totals,
    place: usize,
) -> usize
    requires header_value { refusal_of header.now ≡ no_refusal }
    requires flagged { Flagged header.now cards.now }
    requires store_value { (store.now ≡ (gathered header.now).keys) × (links.now ≡ (gathered header.now).links) }
    requires totals_value { totals ≡ totals_of header.now }
    requires place_bound { (place < cards_in header.now) × (found ≤ 81 * kinds * place) }
    ensures list { list.new
        ≡ stored_all list.old found (card_entries header.now place) }
    ensures number { result ≡ found + length (card_entries header.now place) }
    ensures few { result ≤ found + 81 * kinds }
{
    let from = place * CARD;
    let card = &header[from..from + CARD];
    let note = cards[place];
    let layout = forms::layout_in(note);
    let vessel = keys::vessel_of(card, layout);
    let left = begins::any_left(card, layout, forms::is_sure(note));
    let once = !forms::is_flagged(note);
    let mut m = found;
    for i in 0..STEPS {
        let row = begins::step_of(left, layout, i);
        if row == 0 {
            return m;
        }
        let broken = judging::faults_by(store, links, totals, once, card, vessel, row);
        let misplaced = begins::step_left(left, card, layout, i);
        m = entries::put_all(
            list,
            m,
            broken,
            misplaced,
            (place + 1) as u32,
            keys::column_of(row) as u32,
            u32::from(vessel),
        );
    }
    m
}

// The faults of all cards.
fn list_cards(
    list: &mut [u32],
    header: &[u8],
    cards: &[u8; CARDS],
    store: &[u64; ROOM],
    links: &[u16; LINKS],
    totals: Totals,
) -> usize
    requires header_value { refusal_of header.now ≡ no_refusal }
    requires flagged { Flagged header.now cards.now }
    requires store_value { (store.now ≡ (gathered header.now).keys) × (links.now ≡ (gathered header.now).links) }
    requires totals_value { totals ≡ totals_of header.now }
    ensures list { list.new ≡ laid entry_size list.old (entries header.now) }
    ensures number { result ≡ length (faults header.now) }
{
    let mut found = 0;
    // By their places: what a card breaks is told of a place in the whole header.
    for place in 0..header.len() / CARD {
        found = list_card(list, found, header, cards, store, links, totals, place);
    }
    found
}

// The faults of a header that was accepted, with its cards noted; a card gets a flag where it has a key that is defined twice.
pub fn list_faults(header: &[u8], cards: &mut [u8; CARDS], list: &mut [u32]) -> usize
    requires header_value { refusal_of header.now ≡ no_refusal }
    requires noted { Noted header.now (cards_in header.now) cards.old }
    ensures list { list.new ≡ laid entry_size list.old (entries header.now) }
    ensures number { result ≡ length (faults header.now) }
    ensures cards { cards.new ≡ flagged_all cards.old (gathered header.now) }
{
    let mut store = [0u64; ROOM];
    let mut links = [0u16; LINKS];
    gather::gather(header, cards, &mut store, &mut links);
    flagging::flag_shared(cards, &store, &links);
    let totals = totals::totals_of(header, cards, &store, &links);
    list_cards(list, header, cards, &store, &links, totals)
}
