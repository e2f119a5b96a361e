// A page for people: bytes, numbers and cards collected in a lent buffer that is written out whenever it is full.
use format_layout::{BLANK, CARD, CODE};
use std::fmt;
use std::io::{Error, ErrorKind, Stdout};
use value_text::printable::LAST;
use value_text::text;

// A page on standard output: the buffer that is lent for it, how much of it is filled, and the error of the write that
// failed, if one did.
#[derive(Drop)]
pub struct Page<'a> {
    to: Stdout,
    bytes: &'a mut [u8],
    end: usize,
    failure: Option<Error>,
}

// A page on standard output that is collected in a buffer.
pub fn on(to: Stdout, bytes: &mut [u8]) -> Page<'_> {
    Page {
        to,
        bytes,
        end: 0,
        failure: None,
    }
}

// The card with a number, from 1; empty where there is none.
pub fn card_in(header: &[u8], card: usize) -> &[u8] {
    if card == 0 || header.len() / CARD < card {
        return &[];
    }
    let end = card * CARD;
    &header[end - CARD..end]
}

// The character that is shown for a byte.
fn shown(b: u8) -> u8 {
    match b {
        BLANK..=LAST => b,
        _ => b'.',
    }
}

// Never an error: the page keeps its failure, and finish answers it.
impl fmt::Write for Page<'_> {
    fn write_str(&mut self, s: &str) -> fmt::Result {
        self.push_all(s.as_bytes());
        Ok(())
    }
}

impl Page<'_> {
    // Writes out the full buffer, which is filled anew then; once a write has failed it stays full, and nothing more is
    // written.
    fn write_out(&mut self) {
        if self.failure.is_some() {
            return;
        }
        let to = self.to;
        match to.write_all(self.bytes) {
            Ok(()) => self.end = 0,
            Err(why) => self.failure = Some(why),
        }
    }

    // Puts a byte.
    pub fn push(&mut self, b: u8) {
        if self.end == self.bytes.len() {
            self.write_out();
        }
        if self.end < self.bytes.len() {
            self.bytes[self.end] = b;
            self.end += 1;
        } else if self.failure.is_none() {
            self.failure = Some(Error::from(ErrorKind::WriteZero));
        }
    }

    // Writes out what is left, or answers why not all was written.
    pub fn finish(&self) -> Result<(), Error> {
        if let Some(why) = self.failure {
            return Err(why);
        }
        let Some(left) = self.bytes.get(..self.end) else {
            return Err(Error::from(ErrorKind::WriteZero));
        };
        self.to.write_all(left)
    }

    // Puts bytes as they are.
    pub fn push_all(&mut self, s: &[u8]) {
        for b in s {
            self.push(*b);
        }
    }

    // Puts bytes so that they can be read: a dot for each that is not printable.
    pub fn push_shown(&mut self, s: &[u8]) {
        for b in s {
            self.push(shown(*b));
        }
    }

    // Puts a caret under a column; no line at all where there is no such column.
    fn push_caret(&mut self, column: usize) {
        if (1..=CARD).contains(&column) {
            for _ in 0..=column {
                self.push(BLANK);
            }
            self.push_all(b"^\n");
        }
    }

    // Puts a card as it stands, without the blanks at its end, and a caret under a column.
    pub fn push_card(&mut self, card: &[u8], column: usize) {
        self.push_all(b"  ");
        self.push_shown(text::stretch(card));
        self.push(b'\n');
        self.push_caret(column);
    }

    // Puts a card's code.
    pub fn push_code(&mut self, card: &[u8]) {
        self.push_shown(card.get(..CODE).unwrap_or(&[]));
    }
}
