// No code: the theory of row systems, for spline and station. See specs/Theorems.antt.
#![tactic(auto)]
