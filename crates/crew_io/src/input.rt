// Standard input, read to its end or until a lent buffer is full; a read that fails is told.
ghost use Rattle.std.specs.Prelude.{◌≡◌, ◌≤◌, length, IfOk};
ghost use Rattle.crew_io.specs.input.Taken.{Fills};

use format_layout::{CARD, CARDS};
use std::io::{Error, Read};

// The longest header, and one card more to notice a longer one.
pub const ROOM: usize = (CARDS + 1) * CARD;

// Room for a header, made here so that only a law has to know its length.
pub fn room() -> [u8; ROOM]
    ensures { 327760 ≡ length result }
{
    [0; ROOM]
}

// Reads until the input ends or the buffer is full, and answers how many bytes came; a read that fails ends it.
pub fn read_all<R: Read>(from: &mut R, buf: &mut [u8]) -> Result<usize, Error>
    ensures sizes { IfOk result (λ n. n ≤ length buf.old) }
    ensures bytes { IfOk result (λ n. Fills (R.remaining from.old) (R.remaining from.new) n buf.new) }
{
    let mut done = 0;
    while done < buf.len() {
        let more = from.read(&mut buf[done..])?;
        if more == 0 {
            return Ok(done);
        }
        done += more;
    }
    Ok(done)
}
