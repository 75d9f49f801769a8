// Mathematics only: the laws are in proofs/, a file a subject.
#![tactic(auto)]
