// No code: demand 3 (group C) as one claim over the definitions that the entry points of layout, runner and place promise. See specs/Claim.antt.
#![tactic(auto)]
