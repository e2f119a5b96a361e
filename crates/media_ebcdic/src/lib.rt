// Tapes in EBCDIC: a whole buffer translated by IBM code page 037, and back. Every byte and every length translates.
#![tactic(auto)]

pub mod tables;

ghost use Rattle.std.specs.Prelude.{◌≡◌, ℕ, length, map};
ghost use Rattle.base_lists.specs.Laid.{stored};
ghost use Rattle.media_ebcdic.specs.Translating.{ascii_from, ebcdic_from, translated_for};

use base_refusal::{Refusal, refuse};
use tables::{ascii_of, ebcdic_of};

// The input translated byte by byte, an output that is too short left as it was.
fn translate<F: Fn(u8) -> u8>(input: &[u8], out: &mut [u8], entry: F) -> Result<usize, Refusal>
    requires { F.IsAlwaysCallable entry }
    ensures answer { result ≡ translated_for (length input.now) (length out.old) }
    ensures out { (e : ℕ → ℕ) → ((b x : ℕ) → F.post entry b x → x ≡ e b)
        → out.new ≡ stored out.old 0 (map e input.now) }
{
    if out.len() < input.len() {
        return Err(refuse(base_refusal::NO_OUTPUT, 0, 0));
    }
    for (i, b) in input.iter().enumerate() {
        out[i] = entry(*b);
    }
    Ok(input.len())
}

// A tape in EBCDIC, translated to ASCII.
pub fn to_ascii(tape: &[u8], out: &mut [u8]) -> Result<usize, Refusal>
    ensures answer { result ≡ translated_for (length tape.now) (length out.old) }
    ensures out { out.new ≡ stored out.old 0 (ascii_from tape.now) }
{
    translate(tape, out, ascii_of)
}

// A text in ASCII, translated to EBCDIC.
pub fn to_ebcdic(text: &[u8], out: &mut [u8]) -> Result<usize, Refusal>
    ensures answer { result ≡ translated_for (length text.now) (length out.old) }
    ensures out { out.new ≡ stored out.old 0 (ebcdic_from text.now) }
{
    translate(text, out, ebcdic_of)
}
