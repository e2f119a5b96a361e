// Questions about a key.
use base_refusal::Refusal;
use std::io::Stdout;
use test_script::say;
use tie_lookup::questions::{Defined, Key};
use tie_lookup::{Node, Observation, Sensor, Streamer};

// Writes what a header says of a key.
pub fn say_key(to: Stdout, d: Result<Defined, Refusal>) {
    match d {
        Ok(Defined::None) => say::words(to, b"none"),
        Ok(Defined::Only(card, column)) => {
            say::words(to, b"only");
            say::next(to, card as u64);
            say::next(to, column as u64)
        }
        Ok(Defined::Several(k)) => {
            say::words(to, b"several");
            say::next(to, k as u64)
        }
        Err(r) => say::refused(to, r),
    }
}

// The number, 0 where there is none.
fn whole_in(s: &[u8]) -> i64 {
    test_script::signed_in(s).unwrap_or(0)
}

// whole N, pair N M, or a text
fn key_in(s: &[u8]) -> Key {
    let rest = test_script::next(s);
    match test_script::letter(s) {
        b'w' => Key::Whole(whole_in(rest)),
        b'p' => Key::Pair(
            whole_in(test_script::word(rest)),
            whole_in(test_script::next(rest)),
        ),
        _ => Key::Text,
    }
}

// CLASS KEY
fn find_by(args: &[u8], header: &[u8]) -> Result<Defined, Refusal> {
    let key = test_script::next(args);
    let mut columns = [b' '; 128];
    let size = test_script::columns_in(test_script::from_bar(key), &mut columns).unwrap_or(0);
    let class = test_script::count_in(test_script::word(args)).unwrap_or(0);
    tie_lookup::find_key(
        header,
        class,
        key_in(key),
        test_script::front(&columns, size),
    )
}

// The same, or streamer, node, motion or observation and a number.
pub fn find(args: &[u8], header: &[u8]) -> Result<Defined, Refusal> {
    let n = whole_in(test_script::next(args));
    match test_script::letter(args) {
        b's' => tie_lookup::find_streamer(header, Streamer(n)),
        b'n' => tie_lookup::find_node(header, Node(n)),
        b'm' => tie_lookup::find_sensor(header, Sensor(n)),
        b'o' => tie_lookup::find_observation(header, Observation(n)),
        _ => find_by(args, header),
    }
}
