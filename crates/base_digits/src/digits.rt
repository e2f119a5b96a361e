// Digits in columns: reading those at the front.
ghost use Rattle.std.specs.Prelude.{◌≡◌, ◌+◌, ◌*◌, ◌-◌, ◌≤◌, length};
ghost use Rattle.base_digits.specs.digits.Figures.{blanks, run_of, capped};

// From here on a number is only known to be too large.
pub const LIMIT: u64 = 1000000000000000000;

// What a walk over digits finds: the number they make, and how many they are.
#[derive(Clone, Copy)]
pub struct Run {
    pub number: u64,
    pub count: usize,
}

// A number, or the limit.
pub fn cap(n: u64) -> u64
    ensures { result ≡ capped n }
{
    n.min(LIMIT)
}

// A number with one more digit behind it, or the limit.
fn grown(n: u64, digit: u8) -> u64
    requires { (n ≤ 1000000000000000000) × (48 ≤ digit) × (digit ≤ 57) }
    ensures { result ≡ capped (n * 10 + (digit - 48)) }
{
    cap(n * 10 + u64::from(digit - b'0'))
}

// Reads the digits at the front of s behind the number n.
pub fn read_run(s: &[u8], n: u64) -> Run
    ensures found { result ≡ run_of n s.now }
    ensures within { result.count ≤ length s.now }
{
    let mut number = cap(n);
    for (count, &b) in s.iter().enumerate() {
        if !b.is_ascii_digit() {
            return Run { number, count };
        }
        number = grown(number, b);
    }
    Run {
        number,
        count: s.len(),
    }
}

// How many blanks stand at the front of s.
pub fn padding(s: &[u8]) -> usize
    ensures found { result ≡ blanks s.now }
    ensures within { result ≤ length s.now }
{
    s.iter().take_while(|b| **b == b' ').count()
}
