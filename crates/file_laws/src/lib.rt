// What holds of every file: its refusals, its limits, and which of its bytes its reading depends on. See proofs/. Nothing runs here.
#![tactic(auto)]
