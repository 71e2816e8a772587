// Every theorem of the other crates, stated again by its name, with its proof: proofs/Theorems.antt. There is no code.

#![tactic(auto)]
