// Whole numbers and decimals in columns: read, judged without their value, and written.
#![tactic(auto)]

pub mod number;
pub mod number_entry;
pub mod shapes;
