// No code: what is proved of a course and its mirror image (L7, P6, W16), over the definitions that layout and place promise. See specs/Theorems.antt.
#![tactic(auto)]
