// A header checked, and the whole answer to the crew spelled.
#![tactic(auto)]

pub mod lines;

ghost use Rattle.std.specs.Prelude.{◌≡◌, ◌*◌, ◌≤◌, length};
ghost use Rattle.base_lists.specs.Laid.{laid};
ghost use Rattle.tie_rules.specs.Faults.{entry_size, faults, entries};
ghost use Rattle.tie_check.specs.Answer.{answer_for, list_for};
ghost use Rattle.crew_answer.specs.lines.Text.{most, longest};
ghost use Rattle.crew_answer.specs.Answer.{too_many, program_refusal, answer_to};

use crate::lines::MOST;
use base_refusal::{Refusal, TOO_MANY, refuse};
use format_layout::{CARD, FEW_CARDS};
use tie_check::entries::ENTRY;

// Room for the entries that are told.
const ROOM: usize = MOST * ENTRY;

// Whether a header has whole cards, and more of them than the program takes.
#[tactic(auto, unfolding(crate::specs::Answer::too_many, header_check::specs::forms::Cards::cards_in))]
fn too_many(header: &[u8]) -> bool
    ensures { result ≡ too_many header.now }
{
    header.len() % CARD == 0 && FEW_CARDS < header.len() / CARD
}

// The check of a header by the crew's programs, which take fewer cards than the library.
pub fn check(header: &[u8], list: &mut [u32]) -> Result<usize, Refusal>
    ensures answer { result ≡ answer_for (program_refusal header.now) (length (faults header.now)) }
    ensures list { list.new
        ≡ list_for (program_refusal header.now) list.old (entries header.now) }
{
    if too_many(header) {
        return Err(refuse(TOO_MANY, 0, 0));
    }
    tie_check::check(header, list)
}

// Checks a header with a lent list, and spells the answer.
fn tell_by(header: &[u8], list: &mut [u32; ROOM], out: &mut [u8]) -> usize
    requires { length list.old ≡ most * entry_size }
    ensures bytes { out.new ≡ laid 1 out.old (answer_to header.now) }
    ensures size { result ≡ length (answer_to header.now) }
    ensures within { result ≤ longest }
{
    let ties = check(header, list);
    match ties {
        Ok(n) => lines::spell_broken(out, n, list),
        Err(r) => lines::spell_refused(out, r.number, r.card, r.column),
    }
}

// Spells the answer to a header from the front of a buffer, as far as it has room, and answers how long it is.
pub fn tell(header: &[u8], out: &mut [u8]) -> usize
    ensures bytes { out.new ≡ laid 1 out.old (answer_to header.now) }
    ensures size { result ≡ length (answer_to header.now) }
    ensures within { result ≤ longest }
{
    let mut list = [0u32; ROOM];
    tell_by(header, &mut list, out)
}
