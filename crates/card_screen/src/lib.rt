// A card looked at column by column, each once. The machine may say that a card is fine; of any other card it says nothing, and the
// card is judged field by field.

#![tactic(auto)]

pub mod roles;
pub mod tables;

ghost use Rattle.std.specs.Prelude.{◌<◌, ◌%◌, ◌≡◌, length};
ghost use Rattle.card_screen.specs.Machine.{step, run_to, ends, Built};
ghost use Rattle.card_screen.specs.Roles.{sure};

use crate::tables::TABLE;

// How many layouts there are.
const LAYOUTS: usize = 31;

// A card's rows of columns, and how many columns each has.
const ROWS: usize = 5;

const COLUMNS: usize = 16;

// The states that are named here: blank so far, digits or text, a point and digits, and not sure.
const BLANK: u64 = 0;

const FILLED: u64 = 24;

const PLACES: u64 = 40;

const UNSURE: u64 = 56;

// One more byte.
fn next(table: &[u64; TABLE], state: u64, role: u64, b: u8) -> u64
    requires built { Built table.now }
    requires state_bound { (state < 64) × (state % 8 ≡ 0) × (role < 16) }
    ensures { (result ≡ step role b state) × (result < 64) × (result % 8 ≡ 0) }
{
    let rows = table[b as usize];
    (table[(rows + role) as usize] >> state) % 64
}

// One row of columns, their roles a hexadecimal digit each of one number.
fn run_row(table: &[u64; TABLE], columns: &[u8], roles: u64, state: u64) -> u64
    requires built { Built table.now }
    requires columns_len { length columns.now ≡ 16 }
    requires state_bound { (state < 64) × (state % 8 ≡ 0) }
    ensures { (result ≡ run_to columns.now 0 roles state 16) × (result < 64) × (result % 8 ≡ 0) }
{
    let mut rest = roles;
    let mut s = state;
    for b in columns {
        s = next(table, s, rest % 16, *b);
        rest /= 16;
    }
    s
}

// Whether a field may end in a state.
fn may_end(state: u64) -> bool
    ensures { result ≡ ends state }
{
    matches!(state, BLANK | FILLED | PLACES)
}

// Whether the machine is sure that a card of a layout has no offence and no misplaced number. Which layouts it is never sure of is
// known before the first column.
pub fn is_fine(table: &[u64; TABLE], card: &[u8], layout: usize) -> bool
    requires built { Built table.now }
    requires card_len { length card.now ≡ 80 }
    ensures { result ≡ sure layout card.now }
{
    if LAYOUTS <= layout {
        return false;
    }
    if roles::roles_at(layout * ROWS) == 0 {
        return false;
    }
    let mut state = FILLED;
    for (row, columns) in card.chunks_exact(COLUMNS).enumerate() {
        state = run_row(table, columns, roles::roles_at(layout * ROWS + row), state);
        if state == UNSURE {
            return false;
        }
    }
    may_end(state)
}
