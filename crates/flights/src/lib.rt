// No code: what is proved of rounds in a row (Q4 to Q7, W18), over the definitions that crates seat and fleet promise. See specs/Theorems.antt, specs/Worked.antt.
#![tactic(auto)]
