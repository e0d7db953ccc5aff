// The language: what is believed stands in specs/, its theorems in proofs/.

#![tactic(auto)]
