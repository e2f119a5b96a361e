// Digits and blanks written into columns, and how many digits a number has.
ghost use Rattle.std.specs.Prelude.{◌≡◌, ◌≤◌, ◌/◌, ◌^◌, length, replicate};
ghost use Rattle.base_digits.specs.digits.Digits.{digits, size};

// Fills the columns with the last digits of n, and answers what stands before those.
pub fn fill_digits(columns: &mut [u8], n: u64) -> u64
    ensures rest { result ≡ n / 10 ^ length columns.old }
    ensures columns { columns.new ≡ digits (length columns.old) n }
{
    let mut rest = n;
    for i in (0..columns.len()).rev() {
        columns[i] = b'0' + (rest % 10) as u8;
        rest /= 10;
    }
    rest
}

// Fills the columns with blanks.
pub fn fill_blanks(columns: &mut [u8])
    ensures { columns.new ≡ replicate (length columns.old) 32 }
{
    columns.fill(b' ');
}

// How many digits n has; zero has one.
pub fn size_of(n: u64) -> usize
    ensures found { result ≡ size n }
    ensures within { (1 ≤ result) × (result ≤ 20) }
{
    n.max(1).ilog10() as usize + 1
}
