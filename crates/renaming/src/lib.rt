// Renaming changes nothing: when two trees agree, in specs/, and what then agrees of their runs; the theorems are in proofs/.

#![tactic(auto)]
