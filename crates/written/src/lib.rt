// No code: what is proved of written sheets (G5, G6), and of reading and writing at the limits of reach (W14), over the definitions that both promise.
// See specs/Theorems.antt, specs/Worked.antt.
#![tactic(auto)]
