// What a key stands for, in the crew's words, and the codes of the cards that define it.
use crew_io::page::Page;
use header_check::forms::UNREAD;
use std::fmt::Write;
use tie_rules::packing::{EACH, ROOM};
use tie_rules::{
    DATUMS, GRID, NODES, OBSERVATIONS, POINTS, SENSORS, SERIALS, SLOTS, STREAMERS, VESSELS,
    WAYPOINTS, keys,
};

// Puts a number of things by their word, in the plural for any number but 1.
pub fn push_count(out: &mut Page<'_>, number: u64, word: &str) {
    let plural = if number == 1 { "" } else { "s" };
    let _ = write!(out, "{number} {word}{plural}");
}

// Puts a text that is held as a number, seven bits a byte, its first byte the lowest.
fn push_serial(out: &mut Page<'_>, bits: u64) {
    let mut rest = bits;
    while 0 < rest {
        out.push((rest % 128) as u8);
        rest /= 128;
    }
}

// Puts what a key stands for, as a sentence begins.
pub fn push_thing(out: &mut Page<'_>, key: u64) {
    let value = key % ROOM;
    let _ = match key / ROOM {
        DATUMS => write!(out, "Datum {value}"),
        STREAMERS => write!(out, "Streamer {value}"),
        NODES => write!(out, "Node {value}"),
        SERIALS => {
            out.push_all(b"Compass serial ");
            push_serial(out, value);
            Ok(())
        }
        SENSORS => write!(out, "Motion sensor {value}"),
        VESSELS => write!(out, "Vessel {value}"),
        WAYPOINTS => write!(out, "Waypoint {} of vessel {}", value % EACH, value / EACH),
        POINTS => write!(out, "Variation point {value}"),
        GRID => write!(out, "The variation grid"),
        OBSERVATIONS => write!(out, "Observation {value}"),
        _ => Ok(()),
    };
}

// Whether the cards of a layout define keys of a class.
fn defines(layout: usize, class: u64) -> bool {
    (1..=SLOTS).any(|slot| keys::defined_class(tie_rules::tie_of(layout, slot)) == class)
}

// Puts a byte of a code; where the code leaves it open, the datum that it is, # for a digit of an observation's type,
// or @ for the digit of a vessel.
fn push_open(out: &mut Page<'_>, byte: u8, key: u64) {
    match byte {
        b'@' | b'#' => match key / ROOM {
            DATUMS => {
                let _ = write!(out, "{}", key % ROOM);
            }
            OBSERVATIONS => out.push(b'#'),
            _ => out.push(b'@'),
        },
        _ => out.push(byte),
    }
}

// Puts the code of a layout, by its row in the format's table: five bytes, the last one lowest.
fn push_pattern(out: &mut Page<'_>, layout: usize, key: u64) {
    for byte in &format_layout::row_of(layout, 0).to_be_bytes()[3..] {
        push_open(out, *byte, key);
    }
}

// Whether cards of a layout behind one define keys of a class.
fn defined_behind(layout: usize, class: u64) -> bool {
    (layout..=UNREAD).skip(1).any(|next| defines(next, class))
}

// Puts what stands before a code: nothing before the first of several.
fn push_or(out: &mut Page<'_>, first: bool, more: bool) {
    if first {
        return;
    }
    if more {
        out.push_all(b", ");
    } else {
        out.push_all(b" or ");
    }
}

// Puts the code of a layout that defines a key, behind those that are told already.
fn push_definer(out: &mut Page<'_>, first: bool, layout: usize, key: u64) {
    push_or(out, first, defined_behind(layout, key / ROOM));
    push_pattern(out, layout, key);
}

// Puts the codes of the cards that define a key.
pub fn push_definers(out: &mut Page<'_>, key: u64) {
    let mut first = true;
    for layout in 0..UNREAD {
        if defines(layout, key / ROOM) {
            push_definer(out, first, layout, key);
            first = false;
        }
    }
}

// Puts what a card does with a key that another has to define.
pub fn push_use(out: &mut Page<'_>, key: u64) {
    if key / ROOM == GRID {
        out.push_all(b" is needed here");
    } else {
        out.push_all(b" is named here");
    }
}
