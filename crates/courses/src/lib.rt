// No code: the worked courses W1 to W9, proved from the definitions. See specs/Starred.antt and specs/Theorems.antt.
#![tactic(auto)]
