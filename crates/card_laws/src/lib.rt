// Laws about one card; no functions.
#![tactic(auto)]

pub mod exactly;
pub mod rewriting;
