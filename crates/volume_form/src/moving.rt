// Bytes moved inside one lent buffer, also where the two places overlap; bytes copied in; a stretch made blank.
ghost use Rattle.std.specs.Prelude.{◌≡◌, ◌+◌, ◌-◌, ◌≤◌, length, replicate};
ghost use Rattle.volume_form.specs.Moved.{moved, laid_at};

use format_layout::BLANK;
use value_text::text_entry;

// Moves k bytes from a place to a later one: the last byte first. A copy within the slice would want memmove of the C library, here
// and below.
pub fn move_up(s: &mut [u8], from: usize, to: usize, k: usize)
    requires { (from ≤ to) × (to + k ≤ length s.old) }
    ensures { s.new ≡ moved s.old from to k }
{
    for i in (0..k).rev() {
        s[to + i] = s[from + i];
    }
}

// Moves k bytes from a place to an earlier one: the first byte first.
pub fn move_down(s: &mut [u8], from: usize, to: usize, k: usize)
    requires { (to ≤ from) × (from + k ≤ length s.old) }
    ensures { s.new ≡ moved s.old from to k }
{
    for i in 0..k {
        s[to + i] = s[from + i];
    }
}

// Lays a text into the buffer at a place.
pub fn lay(s: &mut [u8], at: usize, text: &[u8])
    requires { at + length text.now ≤ length s.old }
    ensures { s.new ≡ laid_at s.old at text.now }
{
    text_entry::copy(&mut s[at..], text);
}

// Makes the bytes from a place up to another blank.
pub fn blank(s: &mut [u8], from: usize, to: usize)
    requires { (from ≤ to) × (to ≤ length s.old) }
    ensures { s.new ≡ laid_at s.old from (replicate (to - from) 32) }
{
    s[from..to].fill(BLANK);
}
