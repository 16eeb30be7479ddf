// No code: the exact spline and its rows, for station. See specs/: Spline and Position, to be read against groups R, E, P and 004, then Theorems.
#![tactic(auto)]
