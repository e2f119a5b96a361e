// Answers a script that makes headers and asks for their broken ties and their keys.
#![tactic(auto)]

mod keyed;
mod lists;

use base_refusal::Refusal;
use std::io::Stdout;
use test_script::{headers, say};

// The most numbers that a list is lent.
const ROOM: usize = 16384;

// Writes the number of broken ties, or the refusal.
fn say_ties(to: Stdout, t: Result<usize, Refusal>) {
    match t {
        Ok(k) => {
            say::words(to, b"broken");
            say::next(to, k as u64)
        }
        Err(r) => say::refused(to, r),
    }
}

// The check with a list of marked numbers; behind its answer the whole list, or only its sum.
fn check_by(to: Stdout, header: &[u8], list: &mut [u32], whole: bool) {
    lists::mark(list);
    say_ties(to, tie_check::check(header, list));
    if whole {
        return lists::say_list(to, list);
    }
    say::words(to, b" sum");
    say::next(to, lists::sum(list))
}

// N: the check with room for N numbers.
fn check(to: Stdout, args: &[u8], header: &[u8], list: &mut [u32], whole: bool) {
    let room = headers::number_in(args).min(list.len());
    check_by(to, header, &mut list[..room], whole)
}

// Answers a command on a header. Adding or keeping cards answers the number of bytes, so that a header costs one check
// and not one a card.
fn answer(to: Stdout, line: &[u8], header: &[u8], list: &mut [u32]) {
    let args = test_script::next(line);
    match test_script::letter(line) {
        b'c' => check(to, args, header, list, true),
        b's' => check(to, args, header, list, false),
        b'f' => keyed::say_key(to, keyed::find(args, header)),
        b'k' | b'a' => say::number(to, header.len()),
        _ => say::unknown(to),
    }
}

fn main(rt: HostRuntime) {
    let to = rt.stdout();
    let mut header = [0u8; headers::ROOM];
    let mut m = 0;
    let mut list = [0u32; ROOM];
    test_script::answer_script(rt.stdin(), to, |line| {
        m = headers::fill(line, &mut header, m);
        answer(to, line, test_script::front(&header, m), &mut list)
    })
}
