// Laws of the header's refusal; no functions.
#![tactic(auto)]
