// The ties between the cards of a header: the list of those that are broken.
#![tactic(auto)]

pub mod begins;
pub mod entries;
pub mod flagging;
pub mod gather;
pub mod judging;
pub mod listing;
pub mod tags;
pub mod totals;

ghost use Rattle.std.specs.Prelude.{◌≡◌, length};
ghost use Rattle.header_check.specs.Refusing.{refusal_of};
ghost use Rattle.tie_rules.specs.Faults.{faults, entries};
ghost use Rattle.tie_check.specs.Answer.{answer_for, list_for};

use base_refusal::Refusal;
use format_layout::CARDS;

// The number of all faults, with their entries in the list as far as they fit; or the header's refusal, and the list as it was.
pub fn check(header: &[u8], list: &mut [u32]) -> Result<usize, Refusal>
    ensures answer { result ≡ answer_for (refusal_of header.now) (length (faults header.now)) }
    ensures list { list.new
        ≡ list_for (refusal_of header.now) list.old (entries header.now) }
{
    let mut cards = [0u8; CARDS];
    header_check::check_noting(header, &mut cards)?;
    Ok(listing::list_faults(header, &mut cards, list))
}
