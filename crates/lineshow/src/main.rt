// The crew's program for people: each line that linecheck writes of a header, followed by what it means.
#![tactic(auto)]

use base_refusal::Refusal;
use crew_answer::lines;
use crew_fault::places;
use crew_io::page::Page;
use crew_io::{failure, input, page};
use format_layout::FEW_CARDS;
use tie_check::entries::ENTRY;

// The longest header that the program takes, and one card more to notice a longer one.
const ROOM: usize = 64080;

// Room for the entries that are told, and for five places of keys on each card.
const LIST: usize = lines::MOST * ENTRY;

const KEYS: usize = 4000;

const PAGE: usize = 65536;

// Room for the line of a refusal.
const LINE: usize = 80;

// Tells the entry whose line has ended behind so many others: the first line has none.
fn explain(out: &mut Page<'_>, header: &[u8], keys: &[u64], list: &[u32], lines: usize) {
    if lines == 0 || list.len() / ENTRY < lines {
        return;
    }
    let at = (lines - 1) * ENTRY;
    crew_fault::tell_fault(
        out,
        header,
        keys,
        list[at],
        list[at + 1],
        list[at + 2],
        list[at + 3],
    );
}

// Puts linecheck's text as it is, and each entry's explanation behind its line.
fn show_lines(out: &mut Page<'_>, text: &[u8], header: &[u8], keys: &[u64], list: &[u32]) {
    for (lines, line) in text.split_inclusive(|b| *b == b'\n').enumerate() {
        out.push_all(line);
        if line.ends_with(b"\n") {
            explain(out, header, keys, list, lines);
        }
    }
}

// Shows how much is broken.
fn show_broken(out: &mut Page<'_>, header: &[u8], found: usize, list: &[u32]) {
    let mut keys = [0u64; KEYS];
    places::note(header, &mut keys);
    let mut text = [0u8; lines::LONGEST];
    let size = lines::spell_broken(&mut text, found, list);
    show_lines(out, &text[..size], header, &keys, list);
}

// Shows why a header is refused.
fn show_refused(out: &mut Page<'_>, header: &[u8], refusal: Refusal) {
    let mut text = [0u8; LINE];
    let size = lines::spell_refused(&mut text, refusal.number, refusal.card, refusal.column);
    out.push_all(&text[..size]);
    crew_refusal::tell_refusal(out, header, refusal, FEW_CARDS);
}

// Checks a header, and shows what the check says.
fn show(out: &mut Page<'_>, header: &[u8]) {
    let mut list = [0u32; LIST];
    match crew_answer::check(header, &mut list) {
        Ok(n) => show_broken(out, header, n, &list),
        Err(refusal) => show_refused(out, header, refusal),
    }
}

// Shows a header on standard output.
fn reply(rt: &HostRuntime, header: &[u8]) {
    let mut bytes = [0u8; PAGE];
    let mut out = page::on(rt.stdout(), &mut bytes);
    show(&mut out, header);
    if let Err(why) = out.finish() {
        failure::tell(rt.stderr(), b"lineshow: standard output", why);
    }
}

fn main(rt: HostRuntime) {
    let mut buf = [0u8; ROOM];
    match input::read_all(&mut rt.stdin(), &mut buf) {
        Ok(n) => reply(&rt, &buf[..n]),
        Err(why) => failure::tell(rt.stderr(), b"lineshow: standard input", why),
    }
}
