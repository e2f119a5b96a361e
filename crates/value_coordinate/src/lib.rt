// Coordinates in columns: the two axes, angles (form 0) and grid coordinates (form 1), read and written.
#![tactic(auto)]

pub mod angle;
pub mod axes;
pub mod coordinate_entry;
pub mod grid;
