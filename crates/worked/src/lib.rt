// Examples worked by hand, and what the contracts rule out, as theorems over the definitions. No code.
#![tactic(auto)]
