// The layouts that rules speak of, by their numbers in the table; X stands for a digit that the code leaves open.
// Line parameters and waypoints of a vessel.
pub const H00X8: usize = 8;

pub const H00X9: usize = 9;

// The variation grid and its points.
pub const H0100: usize = 12;

pub const H0101: usize = 13;

// The shift between two datums.
pub const H0120: usize = 15;

// Network node at a fixed place.
pub const H5000: usize = 27;
