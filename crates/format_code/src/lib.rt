// What the code of a card is: read by a layout, passed, or unknown.
#![tactic(auto)]

ghost use Rattle.std.specs.Prelude.{◌≡◌, ℕ, ◌<◌, ◌≤◌, ◌+◌, ◌*◌, List, length, drop};
ghost use Rattle.format_layout.specs.Table.{passed_codes};
ghost use Rattle.format_layout.specs.packed.Rows.{word_of, layout_count};
ghost use Rattle.format_code.specs.Codes.{byte_fits, codes, place_in, code_at, code_of};
ghost use Rattle.format_code.specs.packed.Words.{fits_word};

mod rows;

use rows::passed;

// Codes, their five bytes as one number: the least with an H, and those at which layouts begin.
const H: u64 = 0x48_00_00_00_00;

const H01: u64 = 0x48_30_31_00_00;

const H0101: u64 = 0x48_30_31_30_31;

const H17: u64 = 0x48_31_37_00_00;

const H21: u64 = 0x48_32_31_00_00;

const H22: u64 = 0x48_32_32_00_00;

const H23: u64 = 0x48_32_33_00_00;

const H2310: u64 = 0x48_32_33_31_30;

const H50: u64 = 0x48_35_30_00_00;

// A card's code: read by the layout with a number, passed, or unknown.
#[derive(Clone, Copy)]
pub enum Code {
    Read(usize),
    Passed,
    Unknown,
}

// Whether a byte is one that a pattern's byte stands for.
#[tactic(auto, unfolding(crate::specs::Codes::byte_fits))]
fn byte_fits(pattern: u8, byte: u8) -> bool
    ensures { result ≡ byte_fits pattern byte }
{
    match pattern {
        b'@' => matches!(byte, b'1'..=b'9'),
        b'#' => byte.is_ascii_digit(),
        _ => pattern == byte,
    }
}

// A code's first three bytes as one number.
fn head_of(first: u8, second: u8, third: u8) -> u64
    ensures { (result ≡ (first * 256 + second) * 256 + third) × (first < 256) × (second < 256) × (third < 256) }
{
    (u64::from(first) * 256 + u64::from(second)) * 256 + u64::from(third)
}

// A code's five bytes as one number.
fn word_of(head: u64, fourth: u8, fifth: u8) -> u64
    requires { head < 16777216 }
    ensures { result ≡ (head * 256 + fourth) * 256 + fifth }
{
    (head * 256 + u64::from(fourth)) * 256 + u64::from(fifth)
}

// Whether a code fits a pattern: first its first three bytes, which no pattern leaves open, then the last, then the fourth.
// One test after the other is faster here than a comparison without branches.
#[tactic(auto, unfolding(crate::specs::packed::Words::fits_word))]
fn fits_word(word: u64, head: u64, fourth: u8, fifth: u8) -> bool
    ensures { result ≡ fits_word word head fourth fifth }
{
    word / 65536 == head
        && byte_fits((word % 256) as u8, fifth)
        && byte_fits((word / 256 % 256) as u8, fourth)
}

// A layout before which none reads a code: all that stand before it take only lower codes, or, where a code is below every H,
// only higher ones. So the most frequent cards, H22@0 and H23@0, are found at the first comparison.
fn start_of(word: u64) -> usize
    ensures { (result ≤ layout_count) × ((s : List ℕ) → word_of s ≡ word → place_in codes s ≡ result + place_in (drop result codes) s) }
{
    match word {
        H50.. => 27,
        H2310.. => 24,
        H23.. => 23,
        H22.. => 22,
        H21.. => 18,
        H17.. => 16,
        H0101.. => 13,
        H01.. => 12,
        H.. => 0,
        _ => 10,
    }
}

// What a code is that no layout reads: one walk over the passed codes.
fn passed_by(code: &[u8]) -> Code
    requires { length code.now ≡ 5 }
    ensures { result ≡ code_at (layout_count + place_in passed_codes code.now) }
{
    let head = head_of(code[0], code[1], code[2]);
    let fourth = code[3];
    let fifth = code[4];

    // Counted by hand: the rows end at the first 0, and nowhere is it said how many they are.
    let mut number = 0;
    loop {
        let word = passed(number);
        if word == 0 {
            return Code::Unknown;
        }
        if fits_word(word, head, fourth, fifth) {
            return Code::Passed;
        }
        number += 1;
    }
}

// What five bytes are as a code: one walk over the layouts, one comparison for most of them.
fn read_by(code: &[u8]) -> Code
    requires { length code.now ≡ 5 }
    ensures { result ≡ code_of code.now }
{
    let head = head_of(code[0], code[1], code[2]);
    let fourth = code[3];
    let fifth = code[4];

    // Counted by hand as above.
    let mut number = start_of(word_of(head, fourth, fifth));
    loop {
        let word = format_layout::row_of(number, 0);
        if word == 0 {
            return passed_by(code);
        }
        if fits_word(word, head, fourth, fifth) {
            return Code::Read(number);
        }
        number += 1;
    }
}

// What some bytes are as a code.
pub fn code_of(code: &[u8]) -> Code
    ensures { result ≡ code_of code.now }
{
    if code.len() != 5 {
        return Code::Unknown;
    }
    read_by(code)
}
