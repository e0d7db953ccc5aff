// The judge: what it computes stands in specs/, and that it is the language's judge is proved in proofs/.

#![tactic(auto)]
