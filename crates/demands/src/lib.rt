// The three demands, the pool over midnight, the curve, more memory, and the dozen worked by hand, each on a page of its own, over the definitions of
// the contracts. No code.
#![tactic(auto)]
