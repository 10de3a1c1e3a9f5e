// What is promised of the public calls: see specs/Promises.antt and proofs/Kept.antt. Nothing runs here.
#![tactic(auto)]
