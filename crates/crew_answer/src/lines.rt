// The answer to the crew as text: refused and where, or how much is broken and each entry, a line each.
ghost use Rattle.std.specs.Prelude.{◌≡◌, ◌+◌, ◌*◌, ◌≤◌, ◌<◌, length, set};
ghost use Rattle.std.proofs.lemmas.List.Edits.{sets};
ghost use Rattle.base_lists.specs.Laid.{laid};
ghost use Rattle.tie_rules.specs.Faults.{entry_size};
ghost use Rattle.crew_answer.specs.lines.Text.{numeral, spaced, refused_text, count_text, entry_text, entry_at, entries_text, most, broken_text, longest_entry, longest};

use base_digits::filling;
use tie_check::entries::ENTRY;

// The most entries that are told.
pub const MOST: usize = 4000;

// No line of an entry is longer: ten digits a number, and a byte behind each.
const LONGEST_ENTRY: usize = 11 * ENTRY;

// No answer is longer: a line that begins with broken, and that many entries.
pub const LONGEST: usize = 28 + MOST * LONGEST_ENTRY;

const SPACE: u8 = b' ';

const NEWLINE: u8 = b'\n';

// Puts a byte at a place, where there is room, and answers the next place.
fn push(out: &mut [u8], at: usize, b: u8) -> usize
    requires { at < 1000000 }
    ensures out { out.new ≡ set out.old at b }
    ensures next { result ≡ at + 1 }
{
    if at < out.len() {
        out[at] = b;
    }
    at + 1
}

// Puts bytes one after the other.
fn push_all(out: &mut [u8], at: usize, s: &[u8]) -> usize
    requires { at + length s.now < 1000000 }
    ensures out { out.new ≡ sets out.old at s.now }
    ensures next { result ≡ at + length s.now }
{
    let mut end = at;
    for b in s {
        end = push(out, end, *b);
    }
    end
}

// Puts a number in decimal.
fn push_number(out: &mut [u8], at: usize, n: u64) -> usize
    requires { at < 999900 }
    ensures out { out.new ≡ sets out.old at (numeral n) }
    ensures next { result ≡ at + length (numeral n) }
    ensures within { result ≤ at + 20 }
    ensures short { n < 10000000000 → result ≤ at + 10 }
{
    let mut text = [0u8; 20];
    let k = filling::size_of(n);
    filling::fill_digits(&mut text[..k], n);
    push_all(out, at, &text[..k])
}

// Puts a number behind a space.
fn push_spaced(out: &mut [u8], at: usize, n: u64) -> usize
    requires { at < 999800 }
    ensures out { out.new ≡ sets out.old at (spaced n) }
    ensures next { result ≡ at + length (spaced n) }
    ensures within { result ≤ at + 21 }
    ensures short { n < 10000000000 → result ≤ at + 11 }
{
    let next = push(out, at, SPACE);
    push_number(out, next, n)
}

// Puts the line of an entry.
fn push_line(out: &mut [u8], at: usize, card: u64, column: u64, kind: u64, vessel: u64) -> usize
    requires at_bound { at < 900000 }
    requires card_bound { (card < 10000000000) × (column < 10000000000) × (kind < 10000000000) × (vessel < 10000000000) }
    ensures out { out.new ≡ sets out.old at (entry_text card column kind vessel) }
    ensures next { result ≡ at + length (entry_text card column kind vessel) }
    ensures within { result ≤ at + longest_entry }
{
    let first = push_number(out, at, card);
    let second = push_spaced(out, first, column);
    let third = push_spaced(out, second, kind);
    let fourth = push_spaced(out, third, vessel);
    push(out, fourth, NEWLINE)
}

// Puts the entry with a number, from 0, of a list.
fn push_entry(out: &mut [u8], at: usize, list: &[u32], i: usize) -> usize
    requires at_bound { at < 900000 }
    requires entry_size_in_bounds { entry_size * i + entry_size ≤ length list.now }
    ensures out { out.new ≡ sets out.old at (entry_at list.now i) }
    ensures next { result ≡ at + length (entry_at list.now i) }
    ensures within { result ≤ at + longest_entry }
{
    let from = ENTRY * i;
    let card = u64::from(list[from]);
    let column = u64::from(list[from + 1]);
    let kind = u64::from(list[from + 2]);
    let vessel = u64::from(list[from + 3]);
    push_line(out, at, card, column, kind, vessel)
}

// Puts the first k entries.
fn push_entries(out: &mut [u8], at: usize, list: &[u32], k: usize) -> usize
    requires { (at ≤ 28) × (k ≤ most) × (entry_size * k ≤ length list.now) }
    ensures out { out.new ≡ sets out.old at (entries_text list.now k) }
    ensures next { result ≡ at + length (entries_text list.now k) }
    ensures within { result ≤ longest }
{
    let mut end = at;
    // By number, as the contract names an entry of the list.
    for i in 0..k {
        end = push_entry(out, end, list, i);
    }
    end
}

// Puts how much is broken.
fn push_count(out: &mut [u8], n: usize) -> usize
    ensures out { out.new ≡ sets out.old 0 (count_text n) }
    ensures next { result ≡ length (count_text n) }
    ensures within { result ≤ 28 }
{
    let word = push_all(out, 0, b"broken");
    let number = push_spaced(out, word, n as u64);
    push(out, number, NEWLINE)
}

// Spells a refusal from the front of a buffer, as far as it has room, and answers how long the text is.
pub fn spell_refused(out: &mut [u8], number: usize, card: usize, column: usize) -> usize
    ensures bytes { out.new ≡ laid 1 out.old (refused_text number card column) }
    ensures size { result ≡ length (refused_text number card column) }
    ensures within { result ≤ 71 }
{
    let word = push_all(out, 0, b"refused");
    let a = push_spaced(out, word, number as u64);
    let b = push_spaced(out, a, card as u64);
    let c = push_spaced(out, b, column as u64);
    push(out, c, NEWLINE)
}

// Spells that n are broken, with the first of their entries, from the front of a buffer in the same way.
pub fn spell_broken(out: &mut [u8], n: usize, list: &[u32]) -> usize
    ensures bytes { out.new ≡ laid 1 out.old (broken_text n list.now) }
    ensures size { result ≡ length (broken_text n list.now) }
    ensures within { result ≤ longest }
{
    let counted = push_count(out, n);
    let k = n.min(MOST).min(list.len() / ENTRY);
    push_entries(out, counted, list, k)
}
