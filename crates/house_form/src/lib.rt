// The house form: what WRITE promises, in specs/, and what is claimed of the form; the theorems are in proofs/.

#![tactic(auto)]
