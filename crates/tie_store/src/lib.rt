// The store of definitions: entries of a key and a tag, each joined to the one before it in its key's bucket. An entry knows how
// many up to and with itself have its key, so a key is counted by walking its chain to the last entry that has it, and no
// further. A caller lends two arrays of zeros, adds one entry after the other, and then asks.

#![tactic(auto)]

ghost use Rattle.std.specs.Prelude.{◌≡◌, ◌+◌, ◌<◌, get_or};
ghost use Rattle.base_lists.specs.Count.{count};
ghost use Rattle.tie_store.specs.Store.{room, link_room, buckets, bucket, count_in, tag_at, holds, last, nothing_told, told_of, On, keys_with, entry_with, head_with, links_with, Linked};

use format_layout::CARDS;

// As many entries as the largest header can have: a card defines at most four keys.
pub const ROOM: usize = 4 * CARDS;

// A prime by which serials in sequence spread as evenly as chance would have them; 8191 would heap them up, as seven bits a letter
// and its powers of two agree. Keys chosen to share a bucket are walked past one by one.
const BUCKETS: usize = 8093;

// The links: how many entries there are; for each entry the one before it in its bucket, how many up to and with it have its
// key, and its tag; for each bucket its last entry. An entry is named by its number from 1, so that 0 is the end of a chain.
const NEXT: usize = 1;

const TIMES: usize = NEXT + ROOM;

const TAGS: usize = TIMES + ROOM;

const HEADS: usize = TAGS + ROOM;

pub const LINKS: usize = HEADS + BUCKETS;

// A tag that says nothing.
const NO_TAG: u16 = 10;

// What is told of a key: how many entries have it, and the tag of the only one, NO_TAG where there is not exactly one.
#[derive(Clone, Copy)]
pub struct Told {
    pub times: usize,
    pub tag: u16,
}

// The tag of an entry.
#[tactic(auto, unfolding(crate::specs::Store::tag_at))]
pub fn tag_of(links: &[u16; LINKS], i: usize) -> u16
    requires { i < room }
    ensures { result ≡ tag_at links.now i }
{
    links[TAGS + i]
}

// The bucket of a key.
#[tactic(auto, unfolding(crate::specs::Store::bucket))]
fn bucket_of(key: u64) -> usize
    ensures { (result ≡ bucket key) × (result < buckets) }
{
    (key % BUCKETS as u64) as usize
}

fn at(links: &[u16; LINKS], i: usize) -> usize
    requires { i < link_room }
    ensures { result ≡ get_or links.now i 0 }
{
    usize::from(links[i])
}

// How many entries there are.
#[tactic(auto, unfolding(crate::specs::Store::count_in))]
pub fn entries_in(links: &[u16; LINKS]) -> usize
    ensures { result ≡ count_in links.now }
{
    at(links, 0)
}

// The last entry that has a key, up to one of its chain and named as it is; 0 where none has.
fn find_from(keys: &[u64; ROOM], links: &[u16; LINKS], key: u64, from: usize) -> usize
    requires linked { Linked keys.now links.now }
    requires on { On keys.now (bucket key) (count_in links.now) from }
    ensures { result ≡ last (holds keys.now key) from }
{
    let mut link = from;
    while link > 0 {
        if keys[link - 1] == key {
            return link;
        }
        link = at(links, NEXT + (link - 1));
    }
    0
}

// The last of all.
fn find(keys: &[u64; ROOM], links: &[u16; LINKS], key: u64) -> usize
    requires { Linked keys.now links.now }
    ensures { result ≡ last (holds keys.now key) (count_in links.now) }
{
    let head = at(links, HEADS + bucket_of(key));
    find_from(keys, links, key, head)
}

// The last before an entry that has its key. Most have none, and need no walk.
pub fn find_before(keys: &[u64; ROOM], links: &[u16; LINKS], i: usize) -> usize
    requires linked { Linked keys.now links.now }
    requires i_bound { i < count_in links.now }
    ensures { result ≡ last (holds keys.now (get_or keys.now i 0)) i }
{
    if at(links, TIMES + i) < 2 {
        return 0;
    }
    let next = at(links, NEXT + i);
    find_from(keys, links, keys[i], next)
}

// How many entries have a key.
fn times_of(keys: &[u64; ROOM], links: &[u16; LINKS], key: u64) -> usize
    requires { Linked keys.now links.now }
    ensures { result ≡ count (holds keys.now key) (count_in links.now) }
{
    let link = find(keys, links, key);
    if link == 0 {
        return 0;
    }
    at(links, TIMES + (link - 1))
}

// What is told where nothing has a key.
#[tactic(auto, unfolding(crate::specs::Store::nothing_told))]
pub fn nothing() -> Told
    ensures { result ≡ nothing_told }
{
    Told {
        times: 0,
        tag: NO_TAG,
    }
}

// What is told of a key; 0 is no key. The tag is handed back and not judged, so that what contradicts is said in one place.
pub fn look_up(keys: &[u64; ROOM], links: &[u16; LINKS], key: u64) -> Told
    requires { Linked keys.now links.now }
    ensures { result ≡ told_of keys.now links.now key }
{
    if key == 0 {
        return nothing();
    }
    let link = find(keys, links, key);
    if link == 0 {
        return nothing();
    }
    let times = at(links, TIMES + (link - 1));
    if times != 1 {
        return Told { times, tag: NO_TAG };
    }
    let tag = links[TAGS + (link - 1)];
    Told { times, tag }
}

// A number as a link, and as a number of times.
fn narrow(n: usize) -> u16
    requires { n < room }
    ensures { result ≡ n + 1 }
{
    (n + 1) as u16
}

// The links of the entry n.
#[tactic(auto, unfolding(crate::specs::Store::entry_with))]
fn lay_entry(links: &mut [u16; LINKS], n: usize, tag: u16, times: u16, next: u16)
    requires { n < room }
    ensures { links.new ≡ entry_with links.old n tag times next }
{
    links[TAGS + n] = tag;
    links[TIMES + n] = times;
    links[NEXT + n] = next;
}

// The entry n as the last of its bucket, and of all.
#[tactic(auto, unfolding(crate::specs::Store::head_with))]
fn lay_head(links: &mut [u16; LINKS], n: usize, b: usize)
    requires { (n < room) × (b < buckets) }
    ensures { links.new ≡ head_with links.old n b }
{
    let link = narrow(n);
    links[HEADS + b] = link;
    links[0] = link;
}

// One entry more.
pub fn add(keys: &mut [u64; ROOM], links: &mut [u16; LINKS], key: u64, tag: u16)
    requires linked { Linked keys.old links.old }
    requires links_bound { count_in links.old < room }
    ensures keys { keys.new ≡ keys_with keys.old links.old key }
    ensures links { links.new ≡ links_with keys.old links.old key tag }
{
    let n = entries_in(links);
    let b = bucket_of(key);
    let times = narrow(times_of(keys, links, key));
    let head = links[HEADS + b];
    keys[n] = key;
    lay_entry(links, n, tag, times, head);
    lay_head(links, n, b);
}
