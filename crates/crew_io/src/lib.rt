// What the crew's programs share: arguments, standard input, a page for people, and the line that says what failed.
#![tactic(auto)]

pub mod argument;
pub mod failure;
pub mod input;
pub mod page;
