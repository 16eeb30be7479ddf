// No code: what is proved of joined sheets (J1 to J5, W15), over the definitions that crate join promises. See specs/Theorems.antt, specs/Worked.antt.
#![tactic(auto)]
