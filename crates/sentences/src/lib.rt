// Three sentences that hold of every run: claimed in specs/, proved in proofs/.

#![tactic(auto)]
