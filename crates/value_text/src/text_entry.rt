// A text written into columns.
ghost use Rattle.std.specs.Prelude.{◌≡◌, ◌++◌, ◌≤◌, length, drop};
ghost use Rattle.base_digits.specs.digits.Columns.{answer_of, entered_in};
ghost use Rattle.value_text.specs.text.Texts.{printable, well_formed, text_in};

use crate::printable::is_printable;
use crate::text;
use base_digits::filling;
use base_refusal::Unwritten;

// Whether every byte is printable.
fn all_printable(s: &[u8]) -> bool
    ensures { result ≡ printable s.now }
{
    s.iter().all(|b| is_printable(*b))
}

// Whether a text may be put; lead says whether it may begin with a blank.
#[tactic(auto, unfolding(crate::specs::text::Texts::well_formed))]
fn well_formed(text: &[u8], lead: bool) -> bool
    ensures { result ≡ well_formed lead text.now }
{
    !text.is_empty() && text::text_end(text) == text.len() && (lead || !text::begins_blank(text))
}

// Copies a text to the front of the columns.
pub fn copy(columns: &mut [u8], text: &[u8])
    requires { length text.now ≤ length columns.old }
    ensures { columns.new ≡ text.now ++ drop (length text.now) columns.old }
{
    // A copy of slices would want memmove of the C library.
    for (i, b) in text.iter().enumerate() {
        columns[i] = *b;
    }
}

// Writes a text left adjusted, or changes nothing.
pub fn write_text(columns: &mut [u8], text: &[u8], lead: bool) -> Result<(), Unwritten>
    ensures answer { result ≡ answer_of (text_in lead (length columns.old) text.now) }
    ensures columns { columns.new ≡ entered_in (text_in lead (length columns.old) text.now) columns.old }
{
    if !all_printable(text) {
        return Err(Unwritten::Unprintable);
    }
    if !well_formed(text, lead) {
        return Err(Unwritten::Malformed);
    }
    let n = text.len();
    if columns.len() < n {
        return Err(Unwritten::NoRoom);
    }
    copy(columns, text);
    filling::fill_blanks(&mut columns[n..]);
    Ok(())
}
