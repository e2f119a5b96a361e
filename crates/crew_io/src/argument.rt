// The words that a program is called with.
ghost use Rattle.std.specs.Prelude.{◌≤◌, length};

use std::rt::Env;

// Puts the word with a number, from 1, into a buffer, and answers its length: 0 where there is none or it does not fit.
pub fn word(rt: &impl Env, place: usize, buf: &mut [u8]) -> usize
    ensures { result ≤ length buf.new }
{
    rt.arg(place, buf).unwrap_or(0)
}
