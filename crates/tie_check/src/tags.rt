// Tags: what the store keeps of a definition beside its key, the card where it stands and the vessel digit in that card's code.
ghost use Rattle.std.specs.Prelude.{◌≡◌, ◌<◌};
ghost use Rattle.header_check.specs.forms.Cards.{layout_of};
ghost use Rattle.header_check.specs.Refusing.{largest};
ghost use Rattle.tie_check.specs.packed.Numbers.{tag_for, vessel_told, card_told};

use tie_rules::keys;

// The card's number, from 0, stands above the vessel digit.
const PLACE: u16 = 16;

// The tag of the definitions on a card.
pub fn tag_for(card: &[u8], layout: usize, place: usize) -> u16
    requires { (layout ≡ layout_of card.now) × (place < largest) }
    ensures { result ≡ tag_for card.now place }
{
    keys::vessel_of(card, layout) + PLACE * place as u16
}

// The vessel digit that a tag tells.
pub fn vessel_in(tag: u16) -> u16
    ensures { result ≡ vessel_told tag }
{
    tag % PLACE
}

// The card that it tells.
pub fn card_in(tag: u16) -> usize
    ensures { (result ≡ card_told tag) × (result < largest) }
{
    usize::from(tag / PLACE)
}
