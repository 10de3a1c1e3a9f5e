// What the command prints keeps demand 3: see specs/Private.antt and proofs/Secrecy.antt. Nothing runs here.
#![tactic(auto)]
