// Lists of numbers that the check is lent: marked before it, shown or summed behind it.
use std::io::Stdout;
use test_script::say;
use tie_check::entries::ENTRY;

// The mark of a place, larger than any number of an entry.
fn marked(i: usize) -> u32 {
    90000 + (i % 10000) as u32
}

// Marks each number, so that one that the check changes or moves is seen.
pub fn mark(list: &mut [u32]) {
    for (i, x) in list.iter_mut().enumerate() {
        *x = marked(i);
    }
}

// Writes all numbers, a bar before each entry.
pub fn say_list(to: Stdout, list: &[u32]) {
    for entry in list.chunks(ENTRY) {
        say::words(to, b" |");
        for x in entry {
            say::next(to, *x);
        }
    }
}

// One number for all numbers and their order: the script stores this of long lists, and tests/second compares them entry
// by entry.
pub fn sum(list: &[u32]) -> u64 {
    let mut sum = 0;
    for x in list {
        sum = (sum * 31 + u64::from(*x)) % 1000000007;
    }
    sum
}
