// No code: what is proved of strokes (H4 to H7, W19), over the definitions that crates stretch and strokes promise. See specs/Theorems.antt, specs/Worked.antt.
#![tactic(auto)]
