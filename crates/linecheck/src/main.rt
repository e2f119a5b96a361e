// The crew's program: reads a header from standard input, and writes what the check says of it.
#![tactic(auto)]

use crew_answer::lines;
use crew_io::{failure, input};

// The longest header that the program takes, and one card more to notice a longer one.
const ROOM: usize = 64080;

// Writes the answer to a header in one go.
fn reply(rt: &HostRuntime, header: &[u8]) {
    let mut out = [0u8; lines::LONGEST];
    let n = crew_answer::tell(header, &mut out);
    if let Err(why) = rt.write_all(&out[..n]) {
        failure::tell(rt.stderr(), b"linecheck: standard output", why);
    }
}

fn main(rt: HostRuntime) {
    let mut buf = [0u8; ROOM];
    match input::read_all(&mut rt.stdin(), &mut buf) {
        Ok(n) => reply(&rt, &buf[..n]),
        Err(why) => failure::tell(rt.stderr(), b"linecheck: standard input", why),
    }
}
