// The promises of the product on one page, proofs/Promises.antt: laws about what its functions answer. There is no code.
#![tactic(auto)]
