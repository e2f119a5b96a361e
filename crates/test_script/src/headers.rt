// A header that a script makes card by card.
use format_layout::CARD;

// Room for the largest header, three cards more and some bytes.
pub const ROOM: usize = 327936;

// The number whose digits are s, 0 where there is none.
pub fn number_in(s: &[u8]) -> usize {
    crate::count_in(s).unwrap_or(0) as usize
}

// Sets blank columns to |columns> with blanks up to the eightieth, or to |columns| as they are: their number.
fn columns_in(text: &[u8], columns: &mut [u8]) -> usize {
    if crate::columns_to(text, b'>', columns).is_some() {
        return CARD;
    }
    crate::columns_in(text, columns).unwrap_or(0)
}

// Puts columns behind the first m bytes of a header if there is room for all, and answers how many there are then.
fn append(header: &mut [u8], m: usize, columns: &[u8]) -> usize {
    let Some(room) = header.get_mut(m..) else {
        return m;
    };
    let Some(place) = room.get_mut(..columns.len()) else {
        return m;
    };
    place.copy_from_slice(columns);
    m + columns.len()
}

// Puts columns there a number of times.
fn repeat(header: &mut [u8], m: usize, columns: &[u8], times: usize) -> usize {
    let mut end = m;
    for _ in 0..times {
        end = append(header, end, columns);
    }
    end
}

// N |columns>: puts a card, or any columns, behind the header N times.
fn add(args: &[u8], header: &mut [u8], m: usize) -> usize {
    let mut columns = [b' '; 128];
    let size = columns_in(crate::from_bar(args), &mut columns);
    let times = number_in(crate::word(args));
    repeat(header, m, crate::front(&columns, size), times)
}

// N: the bytes of the first N cards, or all.
fn keep(args: &[u8], m: usize) -> usize {
    let n = number_in(args);
    if m / CARD < n {
        return m;
    }
    n * CARD
}

// Does what a line says, and answers how many bytes the header then has.
pub fn fill(line: &[u8], header: &mut [u8], m: usize) -> usize {
    match crate::letter(line) {
        b'k' => keep(crate::next(line), m),
        b'a' => add(crate::next(line), header, m),
        _ => m,
    }
}
