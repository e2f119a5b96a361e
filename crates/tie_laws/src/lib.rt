// Laws of the ties between cards: the list is complete, cards may change places, questions agree with the list; no functions.
#![tactic(auto)]
