// The line that a program says on standard error where it could not read or write.
use std::fmt;
use std::fmt::Write;
use std::io::{Error, Stderr};

// Room for the system's words and the number that std puts behind them.
const ROOM: usize = 128;

// What was said of an error, as far as there is room.
#[derive(Drop)]
struct Said {
    bytes: [u8; ROOM],
    size: usize,
}

impl fmt::Write for Said {
    fn write_str(&mut self, s: &str) -> fmt::Result {
        for b in s.as_bytes() {
            if self.size < ROOM {
                self.bytes[self.size] = *b;
                self.size += 1;
            }
        }
        Ok(())
    }
}

// The system's words alone, without the blank, the brackets and the number behind them.
fn words_in(said: &[u8]) -> &[u8] {
    match said.iter().position(|b| *b == b'(') {
        Some(at) => &said[..at.saturating_sub(1)],
        None => said,
    }
}

// Says the system's words for an error.
fn say_why(to: Stderr, why: Error) -> Result<(), Error> {
    let mut said = Said {
        bytes: [0; ROOM],
        size: 0,
    };
    write!(said, "{why}")?;
    let size = said.size.min(ROOM);
    to.write_all(words_in(&said.bytes[..size]))
}

// Says what failed and why; where that fails too there is nobody to tell.
pub fn tell(to: Stderr, what: &[u8], why: Error) {
    let _ = to.write_all(what);
    let _ = to.write_all(b": ");
    let _ = say_why(to, why);
    let _ = to.write_all(b"\n");
}
