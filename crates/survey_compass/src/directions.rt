// The directions that a card of corrections lists: whether one is listed twice, and which is nearest round the circle.
ghost use Rattle.std.specs.Prelude.{◌≡◌, ◌≤◌, ◌<◌, min};
ghost use Rattle.survey_compass.specs.Directions.{pairs, mark_at, times_listed, is_again, listed_twice, apart, rank_of, rank_at, least_rank, nearest};

use tie_rules::keys;

// How many pairs of a direction and a correction a card has, and how many columns lie from one to the next.
pub const PAIRS: usize = 8;

pub const STEP: usize = 7;

// The columns of the first direction.
const FIRST: usize = 21;

const LAST: usize = 23;

// The directions of a circle.
pub const CIRCLE: u64 = 360;

// The rank of a pair that lists no direction: behind all others, so that the least is found by one fold.
pub const UNLISTED: u64 = CIRCLE * CIRCLE;

// The direction of a pair, 360 as 0, counted from 1; 0 where there is none. No Option: specs/ counts the marks so.
fn mark_at(card: &[u8], pair: usize) -> u64
    requires { pair < pairs }
    ensures { (result ≡ mark_at card.now pair) × (result ≤ 360) }
{
    let number = keys::whole_in(card, FIRST + STEP * pair, LAST + STEP * pair);
    if number == 0 {
        return 0;
    }
    (number - 1) % CIRCLE + 1
}

// How many pairs list a direction.
fn times_listed(card: &[u8], mark: u64) -> usize
    ensures { result ≡ times_listed card.now mark }
{
    (0..PAIRS)
        .filter(|pair| mark_at(card, *pair) == mark)
        .count()
}

// Whether a pair has a direction that is listed more than once.
#[tactic(auto, using(std::proofs::lemmas::Bool::Decides::nat_tests), unfolding(crate::specs::Directions::is_again))]
fn is_again(card: &[u8], pair: usize) -> bool
    requires { pair < pairs }
    ensures { result ≡ is_again card.now pair }
{
    let mark = mark_at(card, pair);
    mark != 0 && 1 < times_listed(card, mark)
}

// Whether a direction is listed more than once.
pub fn listed_twice(card: &[u8]) -> bool
    ensures { result ≡ listed_twice card.now }
{
    (0..PAIRS).any(|pair| is_again(card, pair))
}

// How far two directions lie apart.
#[tactic(auto, unfolding(crate::specs::Directions::apart))]
fn apart_by(a: u64, b: u64) -> u64
    requires { (a < 360) × (b < 360) }
    ensures { (result ≡ apart a b) × (result < 360) }
{
    let on = (a + CIRCLE - b) % CIRCLE;
    let back = (b + CIRCLE - a) % CIRCLE;
    on.min(back)
}

// The rank of a direction, counted from 1, by the one that is asked.
#[tactic(auto, using(std::proofs::lemmas::Bool::Decides::nat_tests), unfolding(crate::specs::Directions::rank_of))]
fn rank_of(asked: u64, mark: u64) -> u64
    requires { (asked < 360) × (mark ≤ 360) }
    ensures { result ≡ rank_of asked mark }
{
    if mark == 0 {
        return UNLISTED;
    }
    CIRCLE * apart_by(asked, mark - 1) + (mark - 1)
}

// The rank of a pair.
#[tactic(auto, unfolding(crate::specs::Directions::rank_at))]
fn rank_at(card: &[u8], asked: u64, pair: usize) -> u64
    requires { (asked < 360) × (pair < pairs) }
    ensures { result ≡ rank_at card.now asked pair }
{
    rank_of(asked, mark_at(card, pair))
}

// The least rank of all pairs.
pub fn least_rank(card: &[u8], asked: u64) -> u64
    requires { asked < 360 }
    ensures { result ≡ least_rank card.now asked }
{
    (0..PAIRS)
        .map(|pair| rank_at(card, asked, pair))
        .fold(UNLISTED, u64::min)
}

// The first pair that has it.
pub fn nearest_to(card: &[u8], asked: u64, least: u64) -> usize
    requires { (asked < 360) × (least ≡ least_rank card.now asked) }
    ensures { result ≡ nearest card.now asked }
{
    (0..PAIRS)
        .position(|pair| rank_at(card, asked, pair) == least)
        .unwrap_or(PAIRS)
}
