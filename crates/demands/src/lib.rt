// The promises that join the other crates: specs/ states them, proofs/ proves them. There is no code here.
#![tactic(auto)]
