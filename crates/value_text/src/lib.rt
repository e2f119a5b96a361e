// Texts in columns: read and put, and the bytes that may stand on a card.
#![tactic(auto)]

pub mod printable;
pub mod text;
pub mod text_entry;
