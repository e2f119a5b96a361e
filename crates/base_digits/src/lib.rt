// Digits in columns: read, written and counted, and the signs of numbers.
#![tactic(auto)]

pub mod digits;
pub mod filling;
pub mod signs;
