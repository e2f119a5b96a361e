// Which kinds of fault a column of a card has, by what is told of the keys that it refers to and defines.
ghost use Rattle.std.specs.Prelude.{◌≡◌};
ghost use Rattle.tie_rules.specs.Keys.{contradict};
ghost use Rattle.tie_rules.specs.Faults.{differs};
ghost use Rattle.tie_rules.specs.packed.Rows.{unmarked};
ghost use Rattle.tie_store.specs.Store.{Linked};
ghost use Rattle.tie_check.specs.packed.Asked.{contradicted_by, vessel_count, miscounted_by, broken_by, told_defined, faults_by};

use crate::entries::Broken;
use crate::tags;
use crate::totals::{Totals, VESSELS};
use tie_rules::keys;
use tie_rules::keys::NO_VESSEL;
use tie_store::{LINKS, ROOM, Told};

// The column of H00@8 that states how many waypoints its vessel has.
const WAYPOINT_COUNT: usize = 79;

// Whether two vessel digits are there and differ.
#[tactic(auto, using(std::proofs::lemmas::Bool::Decides::nat_tests), unfolding(tie_rules::specs::Keys::contradict))]
fn digits_differ(a: u16, b: u16) -> bool
    ensures { result ≡ contradict a b }
{
    a < NO_VESSEL && b < NO_VESSEL && a != b
}

// Whether a vessel digit contradicts: the vessel that the card states, or the digit in the tag of the only definition.
fn contradicts(card: &[u8], row: u64, vessel: u16, tag: u16) -> bool
    ensures { result ≡ contradicted_by card.now row vessel tag }
{
    if keys::states_own(row) {
        let column = keys::column_of(row);
        return keys::whole_in(card, column, column) != u64::from(vessel) + 1;
    }
    digits_differ(vessel, tags::vessel_in(tag))
}

// Whether a count is stated, counted from 1, and another than the one found.
fn count_differs(stated: u64, found: usize) -> bool
    ensures { result ≡ differs (unmarked stated) found }
{
    stated != 0 && stated - 1 != found as u64
}

// The count of a vessel that is stated, counted from 1; 0 is none.
fn counted(waypoints: [usize; VESSELS], vessel: u64) -> usize
    ensures { result ≡ vessel_count waypoints (unmarked vessel) }
{
    if vessel == 0 {
        return 0;
    }
    if vessel > VESSELS as u64 {
        return 0;
    }
    waypoints[(vessel - 1) as usize]
}

// Whether a card states a count that is another than the one found.
fn miscounts(card: &[u8], row: u64, totals: Totals) -> bool
    ensures { result ≡ miscounted_by card.now row totals }
{
    if !keys::states_count(row) {
        return false;
    }
    if keys::column_of(row) == WAYPOINT_COUNT {
        let waypoints = totals.waypoints;
        let found = counted(waypoints, keys::whole_in(card, 30, 30));
        return count_differs(keys::whole_in(card, 79, 80), found);
    }
    count_differs(keys::whole_in(card, 16, 19), totals.points)
}

// Which kinds of fault the column of a row has, by what is told of the key that it refers to and of the one that it defines.
#[tactic(auto, unfolding(crate::specs::packed::Asked::broken_by))]
fn judge_column(
    card: &[u8],
    row: u64,
    vessel: u16,
    reference: u64,
    referred: Told,
    defined: Told,
    totals: Totals,
) -> Broken
    ensures { result ≡ broken_by card.now row vessel reference referred defined totals }
{
    let contradicted = contradicts(card, row, vessel, referred.tag);
    let miscounted = miscounts(card, row, totals);
    Broken {
        undefined: reference != 0 && referred.times == 0,
        redefined: 1 < defined.times,
        ambiguous: 1 < referred.times,
        contradicted,
        miscounted,
    }
}

// What is told of the key that the column of a row defines: nothing that matters on a card without a key that is defined twice.
#[tactic(auto, unfolding(crate::specs::packed::Asked::told_defined))]
fn told_defined(keys: &[u64; ROOM], links: &[u16; LINKS], once: bool, card: &[u8], row: u64) -> Told
    requires { Linked keys.now links.now }
    ensures { result ≡ told_defined keys.now links.now once card.now row }
{
    if once {
        return tie_store::nothing();
    }
    tie_store::look_up(keys, links, keys::defined_by(card, row))
}

// The same by the store. On a card without a key that is defined twice, a column that only defines has no fault.
pub fn faults_by(
    keys: &[u64; ROOM],
    links: &[u16; LINKS],
    totals: Totals,
    once: bool,
    card: &[u8],
    vessel: u16,
    row: u64,
) -> Broken
    requires { Linked keys.now links.now }
    ensures { result ≡ faults_by keys.now links.now totals once card.now vessel row }
{
    if once && keys::only_defines(row) {
        return Broken::NONE;
    }
    let reference = keys::referred_by(card, row);
    let referred = tie_store::look_up(keys, links, reference);
    let defined = told_defined(keys, links, once, card, row);
    judge_column(card, row, vessel, reference, referred, defined, totals)
}
