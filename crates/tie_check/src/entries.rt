// The faults of a column as entries in a lent list, as far as they fit.
ghost use Rattle.std.specs.Prelude.{◌≡◌, cond, [], ◌∷◌, ◌+◌, ◌*◌, ◌≤◌, length};
ghost use Rattle.base_lists.specs.Count.{bit};
ghost use Rattle.base_lists.specs.Laid.{stored};
ghost use Rattle.tie_rules.specs.Faults.{kinds, entry_size};
ghost use Rattle.tie_check.specs.packed.Stored.{stored_all, entries_for};

// How many numbers an entry has: card, column, kind, vessel.
pub const ENTRY: usize = 4;

// The kinds of fault, by their numbers in an entry.
pub const UNDEFINED: u32 = 1;

pub const REDEFINED: u32 = 2;

pub const AMBIGUOUS: u32 = 3;

pub const CONTRADICTED: u32 = 4;

pub const MISCOUNTED: u32 = 5;

pub const MISPLACED: u32 = 6;

// Which kinds of broken tie a column has.
#[derive(Clone, Copy)]
pub struct Broken {
    pub undefined: bool,
    pub redefined: bool,
    pub ambiguous: bool,
    pub contradicted: bool,
    pub miscounted: bool,
}

impl Broken {
    // No fault of any kind.
    pub const NONE: Broken = Broken {
        undefined: false,
        redefined: false,
        ambiguous: false,
        contradicted: false,
        miscounted: false,
    };
}

// An entry, where it fits whole.
fn put(list: &mut [u32], at: usize, card: u32, column: u32, kind: u32, vessel: u32)
    requires { at ≤ 16000000 }
    ensures { list.new ≡ stored list.old at (card ∷ column ∷ kind ∷ vessel ∷ []) }
{
    if list.len() < at + ENTRY {
        return;
    }
    list[at..at + ENTRY].copy_from_slice(&[card, column, kind, vessel]);
}

// The next entry, where there is a fault.
fn put_if(
    list: &mut [u32],
    found: usize,
    fault: bool,
    card: u32,
    column: u32,
    kind: u32,
    vessel: u32,
) -> usize
    requires { found ≤ 4000000 }
    ensures list { list.new
        ≡ cond fault (stored list.old (entry_size * found) (card ∷ column ∷ kind ∷ vessel ∷ [])) list.old }
    ensures number { result ≡ found + bit fault }
    ensures few { result ≤ found + 1 }
{
    if fault {
        put(list, ENTRY * found, card, column, kind, vessel);
        return found + 1;
    }
    found
}

// The entries of a column, kind by kind; the last is that of a misplaced number.
pub fn put_all(
    list: &mut [u32],
    found: usize,
    broken: Broken,
    misplaced: bool,
    card: u32,
    column: u32,
    vessel: u32,
) -> usize
    requires { found ≤ 3000000 }
    ensures list { list.new ≡ stored_all list.old found (entries_for broken misplaced card column vessel) }
    ensures number { result ≡ found + length (entries_for broken misplaced card column vessel) }
    ensures few { result ≤ found + kinds }
{
    let a = put_if(
        list,
        found,
        broken.undefined,
        card,
        column,
        UNDEFINED,
        vessel,
    );
    let b = put_if(list, a, broken.redefined, card, column, REDEFINED, vessel);
    let c = put_if(list, b, broken.ambiguous, card, column, AMBIGUOUS, vessel);
    let d = put_if(
        list,
        c,
        broken.contradicted,
        card,
        column,
        CONTRADICTED,
        vessel,
    );
    let e = put_if(list, d, broken.miscounted, card, column, MISCOUNTED, vessel);
    put_if(list, e, misplaced, card, column, MISPLACED, vessel)
}
