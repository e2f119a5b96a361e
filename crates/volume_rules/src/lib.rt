// Laws of volumes; no functions.
#![tactic(auto)]
