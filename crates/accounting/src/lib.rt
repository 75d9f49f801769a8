// Laws of the monthly ledger and of its floats, with no functions.
#![tactic(auto)]
