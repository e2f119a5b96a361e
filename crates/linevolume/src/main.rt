// The crew's program for volumes: reads a volume from standard input, and writes what is asked for on standard output.
#![tactic(auto)]

mod listing;
mod words;

ghost use Rattle.std.specs.Prelude.{◌≡◌, length};

use crate::words::Whose;
use base_digits::digits;
use base_refusal::Refusal;
use crew_io::{argument, failure, input};
use format_layout::CARD;
use volume_edit::{compact, convert};

// What can be asked for.
#[derive(Clone, Copy)]
enum Wanted {
    New,
    List,
    Get,
    Append,
    Widen,
    Narrow,
    Compact,
}

// The longest volume, and one card more to notice a longer one.
const VOLUME: usize = 20001 * CARD;

// The longest argument.
const WORD: usize = 24;

// Room for a volume: in a function of its own, since the check of each function goes over the arrays that it makes.
fn volume_room() -> [u8; VOLUME]
    ensures { 1600080 ≡ length result }
{
    [0; VOLUME]
}

// What an argument asks for, if it asks for anything.
fn wanted_by(word: &[u8]) -> Option<Wanted> {
    match word {
        b"new" => Some(Wanted::New),
        b"list" => Some(Wanted::List),
        b"get" => Some(Wanted::Get),
        b"append" => Some(Wanted::Append),
        b"widen" => Some(Wanted::Widen),
        b"narrow" => Some(Wanted::Narrow),
        b"compact" => Some(Wanted::Compact),
        _ => None,
    }
}

// Writes cards.
fn write(rt: &HostRuntime, cards: &[u8]) {
    if let Err(why) = rt.write_all(cards) {
        failure::tell(rt.stderr(), b"linevolume: standard output", why);
    }
}

// The first bytes of what was read.
fn first(s: &[u8], n: usize) -> &[u8] {
    &s[..n.min(s.len())]
}

// The first cards of a volume.
fn front(volume: &[u8], cards: usize) -> &[u8] {
    volume.get(..cards.saturating_mul(CARD)).unwrap_or(&[])
}

// How many cards a volume of so many bytes has; where that is no whole number it is told.
fn counted(rt: &HostRuntime, size: usize) -> Option<usize> {
    if size % CARD != 0 {
        words::tell_odd(rt);
        return None;
    }
    Some(size / CARD)
}

// Reads a volume to the end of the input, and answers how many cards it has; where none is read it is told.
fn take(rt: &HostRuntime, volume: &mut [u8]) -> Option<usize> {
    match input::read_all(&mut rt.stdin(), volume) {
        Ok(n) => counted(rt, n),
        Err(why) => {
            failure::tell(rt.stderr(), b"linevolume: standard input", why);
            None
        }
    }
}

// Reads a volume, and takes a step with it.
fn with_volume<F: FnOnce(&mut [u8], usize)>(rt: &HostRuntime, step: F)
    requires { F.IsAlwaysCallable step }
{
    let mut volume = volume_room();
    if let Some(n) = take(rt, &mut volume) {
        step(&mut volume, n);
    }
}

// Writes the empty volume.
fn make_new(rt: &HostRuntime) {
    let mut volume = [0u8; CARD];
    write_changed(rt, volume_edit::lay_empty(&mut volume), &volume);
}

// Lists the lines of a volume.
fn list_lines(rt: &HostRuntime, volume: &[u8], cards: usize) {
    match volume_check::lines(volume, cards) {
        Ok(_) => listing::write_lines(rt, volume, cards),
        Err(r) => words::tell(rt, r, Whose::Volume),
    }
}

// Writes the header at a place.
fn get_line(rt: &HostRuntime, volume: &[u8], cards: usize, place: usize) {
    match volume_check::find_line(volume, cards, place) {
        Ok(_) => write(rt, volume_check::line(volume, cards, place)),
        Err(r) => words::tell(rt, r, Whose::Volume),
    }
}

// Tells why a header is not appended: whether its own offence or one in the volume.
fn tell_append(rt: &HostRuntime, volume: &[u8], cards: usize, r: Refusal) {
    match volume_check::lines(volume, cards) {
        Ok(_) => words::tell(rt, r, Whose::Header),
        Err(_) => words::tell(rt, r, Whose::Volume),
    }
}

// Writes the volume with a header at its end.
fn append_line(rt: &HostRuntime, volume: &mut [u8], cards: usize, header: &[u8]) {
    match volume_edit::append(volume, cards, header) {
        Ok(n) => write(rt, front(volume, n)),
        Err(r) => tell_append(rt, volume, cards, r),
    }
}

// Reads the header, which fills what is lent for it.
fn append_from(rt: &HostRuntime, header: &mut [u8]) {
    match input::read_all(&mut rt.stdin(), header) {
        Ok(n) => {
            let header = first(header, n);
            with_volume(rt, |volume, cards| append_line(rt, volume, cards, header));
        }
        Err(why) => failure::tell(rt.stderr(), b"linevolume: standard input", why),
    }
}

// Appends a header of so many bytes, which stand at the front of the input.
fn append(rt: &HostRuntime, size: usize) {
    let mut header = input::room();
    if input::ROOM < size {
        let _ = eprintln!(rt; "linevolume: the header is too long");
        return;
    }
    append_from(rt, &mut header[..size]);
}

// Writes a volume that is changed.
fn write_changed(rt: &HostRuntime, changed: Result<usize, Refusal>, volume: &[u8]) {
    match changed {
        Ok(n) => write(rt, front(volume, n)),
        Err(r) => words::tell(rt, r, Whose::Volume),
    }
}

// Does what is asked for, with the number that goes with it.
fn run(rt: &HostRuntime, wanted: Wanted, number: usize) {
    match wanted {
        Wanted::New => make_new(rt),
        Wanted::List => with_volume(rt, |volume, n| list_lines(rt, volume, n)),
        Wanted::Get => with_volume(rt, |volume, n| get_line(rt, volume, n, number)),
        Wanted::Append => append(rt, number),
        Wanted::Widen => with_volume(rt, |volume, n| {
            write_changed(rt, convert::widen(volume, n), volume);
        }),
        Wanted::Narrow => with_volume(rt, |volume, n| {
            write_changed(rt, convert::narrow(volume, n), volume);
        }),
        Wanted::Compact => with_volume(rt, |volume, n| {
            write_changed(rt, compact::compact(volume, n), volume);
        }),
    }
}

fn main(rt: HostRuntime) {
    let mut word = [0u8; WORD];
    let size = argument::word(&rt, 1, &mut word);
    let mut digit = [0u8; WORD];
    let count = argument::word(&rt, 2, &mut digit);
    let number = digits::read_run(&digit[..count], 0).number as usize;
    match wanted_by(&word[..size]) {
        Some(wanted) => run(&rt, wanted, number),
        None => {
            let _ = eprintln!(&rt;
                "linevolume: usage: linevolume new|list|get PLACE|append SIZE|widen|narrow|compact"
            );
        }
    }
}
