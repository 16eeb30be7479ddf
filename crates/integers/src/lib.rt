// No code: laws of the whole numbers for the proofs of the other crates. See proofs/.
#![tactic(auto)]
