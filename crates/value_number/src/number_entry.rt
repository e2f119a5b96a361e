// Whole numbers and decimals written into columns of any width, in the one agreed spelling.
ghost use Rattle.std.specs.Prelude.{◌≡◌, ◌+◌, ◌-◌, ◌≤◌, ◌<◌, length};
ghost use Rattle.base_digits.specs.digits.Columns.{right_adjusted, fits, written};
ghost use Rattle.value_number.specs.number_entry.Spelling.{sign_columns, point_columns, pointed, plain_in, spelled, units_in, decimal_in};

use crate::number::{MINUS, POINT};
use base_digits::{digits, filling};
use base_value::Decimal;

// Fills the columns with the digits of n and a point at place k.
fn write_pointed(columns: &mut [u8], n: u64, k: usize)
    requires { k < length columns.old }
    ensures { columns.new ≡ pointed k (length columns.old - (k + 1)) n }
{
    let rest = filling::fill_digits(&mut columns[k + 1..], n);
    columns[k] = POINT;
    filling::fill_digits(&mut columns[..k], rest);
}

// Fills the columns with the digits of n, the last p of them behind a point; true if the point finds room.
pub fn write_plain(columns: &mut [u8], n: u64, p: usize) -> bool
    ensures answer { result ≡ fits (plain_in (length columns.old) p n) }
    ensures columns { columns.new ≡ written (plain_in (length columns.old) p n) columns.old }
{
    if p == 0 {
        filling::fill_digits(columns, n);
        return true;
    }
    if columns.len() <= p {
        return false;
    }
    let k = columns.len() - (p + 1);
    write_pointed(columns, n, k);
    true
}

// Fills the columns with the sign and such a number.
fn write_signed(columns: &mut [u8], minus: bool, n: u64, p: usize, k: usize)
    requires { length columns.old ≡ sign_columns minus + (k + point_columns p) }
    ensures { columns.new ≡ spelled minus k p n }
{
    if minus {
        columns[0] = MINUS;
        write_plain(&mut columns[1..], n, p);
        return;
    }
    write_plain(columns, n, p);
}

// The columns that the point and its digits take.
fn point_columns(p: usize) -> usize
    requires { p < 9223372036854775808 }
    ensures found { result ≡ point_columns p }
    ensures within { result ≤ p + 1 }
{
    if p == 0 { 0 } else { p + 1 }
}

// Writes a number with k digits before the point, right adjusted, if it fits.
fn spell(columns: &mut [u8], minus: bool, n: u64, p: usize, k: usize) -> bool
    requires { (k ≤ 20) × (p ≤ length columns.old) }
    ensures answer { result ≡ fits (right_adjusted (length columns.old) (spelled minus k p n)) }
    ensures columns { columns.new ≡ written (right_adjusted (length columns.old) (spelled minus k p n)) columns.old }
{
    let w = usize::from(minus) + (k + point_columns(p));
    if columns.len() < w {
        return false;
    }
    let first = columns.len() - w;
    filling::fill_blanks(&mut columns[..first]);
    write_signed(&mut columns[first..], minus, n, p, k);
    true
}

// Writes a number right adjusted: with one zero before a leading point, or without it where that has no room.
fn write_units(columns: &mut [u8], minus: bool, n: u64, p: usize) -> bool
    requires { p ≤ length columns.old }
    ensures answer { result ≡ fits (units_in (length columns.old) minus p n) }
    ensures columns { columns.new ≡ written (units_in (length columns.old) minus p n) columns.old }
{
    let size = filling::size_of(n);
    let full = size.max(p + 1) - p;
    if spell(columns, minus, n, p, full) {
        return true;
    }
    let least = size.max(p) - p;
    spell(columns, minus, n, p, least)
}

// Writes a decimal in the one agreed spelling, or changes nothing where it has no room.
pub fn write_decimal(columns: &mut [u8], d: Decimal) -> bool
    ensures answer { result ≡ fits (decimal_in (length columns.old) d) }
    ensures columns { columns.new ≡ written (decimal_in (length columns.old) d) columns.old }
{
    let p = d.places;
    let n = d.units.unsigned_abs();
    if digits::LIMIT <= n {
        return false;
    }
    if columns.len() < p {
        return false;
    }
    write_units(columns, d.units < 0, n, p)
}
