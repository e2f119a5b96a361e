// One field's columns, in each of the paper's spellings: what stands there, and what an entry leaves there.
#![tactic(auto)]

pub mod spelling;
pub mod writing;
