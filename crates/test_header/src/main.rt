// Answers a script that makes headers: each line's answer is what the check says of the header as it then stands.
#![tactic(auto)]

use base_refusal::Refusal;
use std::io::Stdout;
use test_script::{headers, say};

// Writes what the check says.
fn say_checked(to: Stdout, c: Result<(), Refusal>) {
    match c {
        Ok(()) => say::words(to, b"accepted"),
        Err(r) => say::refused(to, r),
    }
}

fn main(rt: HostRuntime) {
    let to = rt.stdout();
    let mut header = [0u8; headers::ROOM];
    let mut m = 0;
    test_script::answer_script(rt.stdin(), to, |line| {
        m = headers::fill(line, &mut header, m);
        say_checked(to, header_check::check(test_script::front(&header, m)))
    })
}
