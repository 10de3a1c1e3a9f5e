// A file with another title: see specs/Title.antt, and proofs/Theorem.antt for what is proved of it. Nothing runs here.
#![tactic(auto)]
