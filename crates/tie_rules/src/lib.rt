// The table of ties: which columns of which codes define a key or refer to one, keys as numbers, and what a broken tie is.
#![tactic(auto)]

pub mod keys;
pub mod offered;
pub mod packing;
mod rows;

pub use rows::tie_of;

// The classes of keys.
pub const DATUMS: u64 = 1;

pub const STREAMERS: u64 = 2;

pub const NODES: u64 = 3;

pub const SERIALS: u64 = 4;

pub const SENSORS: u64 = 5;

pub const VESSELS: u64 = 6;

pub const WAYPOINTS: u64 = 7;

pub const POINTS: u64 = 8;

pub const GRID: u64 = 9;

pub const OBSERVATIONS: u64 = 10;

// They are 1 to this.
pub const CLASSES: u64 = 10;

// The most columns of a card that can carry a tie.
pub const SLOTS: usize = 5;
