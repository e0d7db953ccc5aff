// Worked examples of the language, by computation: proofs/Edges at its limits, proofs/Vectors from an independent implementation.

#![tactic(auto)]
