// Diskette files: a header as text lines of up to 80 characters, each ended by CR LF, and back. Both ways the input is
// judged first and the output written afterwards, so that a refusal leaves the output as it was.

#![tactic(auto)]

ghost use Rattle.std.specs.Prelude.{◌≡◌, ◌++◌, ◌+◌, ◌*◌, ◌/◌, ◌≤◌, ◌<◌, length, take, drop};
ghost use Rattle.media_diskette.specs.Lines.{line_of, lines_of, disk_of, line_length, lines_in, padded, cards_from};
ghost use Rattle.media_diskette.specs.Answers.{bad_byte, offence_of, offence, refused_by, sized, in_room, cards_judged, file_judged, to_answer, from_answer, output_by};

use base_digits::filling;
use base_refusal::{
    EMPTY, NO_LINE_END, NO_OUTPUT, ODD_LENGTH, Refusal, TOO_LONG, TOO_MANY, UNPRINTABLE, refuse,
};
use format_layout::{BLANK, CARD, FEW_CARDS};
use value_text::printable::LAST;
use value_text::{printable, text, text_entry};

const CR: u8 = 13;

const LF: u8 = 10;

// The bytes that end a line.
const LINE_END: usize = 2;

// An answer that is a length, if the output has room for it.
#[tactic(auto, using(std::proofs::lemmas::Bool::Decides::nat_tests))]
fn in_room(answer: Result<usize, Refusal>, room: usize) -> Result<usize, Refusal>
    ensures { result ≡ in_room room answer }
{
    match answer {
        Ok(n) if room < n => Err(refuse(NO_OUTPUT, 0, 0)),
        _ => answer,
    }
}

// The bytes of cards: the first that is not printable, or the length of their lines.
fn measure(cards: &[u8]) -> Result<usize, Refusal>
    requires { length cards.now / 80 ≤ 800 }
    ensures { result
        ≡ refused_by (bad_byte 0 (length cards.now / 80) cards.now)
        (Ok (length (lines_of (length cards.now / 80) cards.now))) }
{
    let mut size = 0;
    for (place, card) in cards.chunks_exact(CARD).enumerate() {
        let bad = printable::first_bad(card);
        if bad < CARD {
            return Err(refuse(UNPRINTABLE, place + 1, bad + 1));
        }
        size += text::text_end(card) + LINE_END;
    }
    Ok(size)
}

// The length of a header's lines, or why there are none.
fn judge_cards(cards: &[u8]) -> Result<usize, Refusal>
    ensures { result ≡ cards_judged cards.now }
{
    if cards.is_empty() {
        return Err(refuse(EMPTY, 0, 0));
    }
    if cards.len() % CARD != 0 {
        return Err(refuse(ODD_LENGTH, 0, 0));
    }
    if FEW_CARDS < cards.len() / CARD {
        return Err(refuse(TOO_MANY, 0, 0));
    }
    measure(cards)
}

// Writes a card's line to the front of the output, and answers its length.
fn lay_line(out: &mut [u8], card: &[u8]) -> usize
    requires { length (line_of card.now) ≤ length out.old }
    ensures size { result ≡ length (line_of card.now) }
    ensures out { out.new
        ≡ line_of card.now ++ drop (length (line_of card.now)) out.old }
{
    let line = text::stretch(card);
    let n = line.len();
    text_entry::copy(out, line);
    out[n] = CR;
    out[n + 1] = LF;
    n + LINE_END
}

// Writes the lines of all cards to the front of the output.
fn lay_lines(out: &mut [u8], cards: &[u8])
    requires { length (disk_of cards.now) ≤ length out.old }
    ensures { out.new
        ≡ disk_of cards.now ++ drop (length (disk_of cards.now)) out.old }
{
    let mut at = 0;
    for card in cards.chunks_exact(CARD) {
        at += lay_line(&mut out[at..], card);
    }
}

// Converts a header to a diskette file.
pub fn to_diskette(cards: &[u8], out: &mut [u8]) -> Result<usize, Refusal>
    ensures answer { result ≡ to_answer cards.now (length out.old) }
    ensures out { out.new
        ≡ output_by (to_answer cards.now (length out.old)) (disk_of cards.now) out.old }
{
    let n = in_room(judge_cards(cards), out.len())?;
    lay_lines(out, cards);
    Ok(n)
}

// The offence of a byte that begins no line end, behind k bytes of its line; 0 for none. Most bytes have none, and need two
// tests here.
fn offence_of(b: u8, k: usize) -> usize
    ensures { result ≡ offence_of b k }
{
    if (BLANK <= b) & (b <= LAST) {
        if k < CARD {
            return 0;
        }
        return TOO_LONG;
    }
    if (b == CR) | (b == LF) {
        return NO_LINE_END;
    }
    UNPRINTABLE
}

// The length of the cards of so many lines, if a header may have as many.
fn size_of(lines: usize) -> Result<usize, Refusal>
    ensures { result ≡ sized lines }
{
    if FEW_CARDS < lines {
        return Err(refuse(TOO_MANY, 0, 0));
    }
    Ok(lines * CARD)
}

// The bytes of a file: the first offence, or the length of the cards.
fn count_lines(file: &[u8]) -> Result<usize, Refusal>
    ensures { result
        ≡ refused_by (offence 0 0 file.now) (sized (length (lines_in file.now))) }
{
    let mut lines = 0;
    let mut k = 0;
    let mut i = 0;
    // Counted by hand: the two bytes that end a line are passed at once.
    while i < file.len() {
        let b = file[i];
        let number = offence_of(b, k);
        if number == 0 {
            k += 1;
            i += 1;
            continue;
        }
        // a CR is an offence only where no LF follows
        if (b == CR) & (base_lists::byte_at(file, i + 1) == LF) {
            lines += 1;
            k = 0;
            i += LINE_END;
            continue;
        }
        return Err(refuse(number, lines + 1, k + 1));
    }
    if k != 0 {
        return Err(refuse(NO_LINE_END, lines + 1, k + 1));
    }
    size_of(lines)
}

// The length of a file's cards, or why there are none.
fn judge_file(file: &[u8]) -> Result<usize, Refusal>
    ensures { result ≡ file_judged file.now }
{
    if file.is_empty() {
        return Err(refuse(EMPTY, 0, 0));
    }
    count_lines(file)
}

// How many bytes stand before the first CR.
fn line_length(file: &[u8]) -> usize
    ensures { (result ≡ line_length file.now) × (result ≤ length file.now) }
{
    file.iter().take_while(|b| **b != CR).count()
}

// Writes the card of a file's first line to the front of the output, and answers the line's length with its end.
fn lay_card(out: &mut [u8], file: &[u8]) -> usize
    requires { (line_length file.now ≤ 80) × (80 ≤ length out.old) }
    ensures size { result ≡ line_length file.now + 2 }
    ensures out { out.new
        ≡ padded (take (line_length file.now) file.now) ++ drop 80 out.old }
{
    let n = line_length(file);
    text_entry::copy(out, &file[..n]);
    filling::fill_blanks(&mut out[n..CARD]);
    n + LINE_END
}

// Writes the cards of all lines of an accepted file to the front of the output.
fn lay_cards(out: &mut [u8], file: &[u8])
    requires { (offence 0 0 file.now ≡ None) × (length (lines_in file.now) * 80 ≤ length out.old) }
    ensures { out.new
        ≡ cards_from file.now ++ drop (length (lines_in file.now) * 80) out.old }
{
    let mut at = 0;
    let mut i = 0;
    // Counted by hand: both places move, one by the length of a line that is found on the way.
    while i < file.len() {
        i += lay_card(&mut out[at..], &file[i..]);
        at += CARD;
    }
}

// Converts a diskette file to a header.
pub fn from_diskette(file: &[u8], out: &mut [u8]) -> Result<usize, Refusal>
    ensures answer { result ≡ from_answer file.now (length out.old) }
    ensures out { out.new
        ≡ output_by (from_answer file.now (length out.old)) (cards_from file.now) out.old }
{
    let n = in_room(judge_file(file), out.len())?;
    lay_cards(out, file);
    Ok(n)
}
