// How many distinct pages lie between two uses of a page, and the stack of the pages most recently used. No code.
#![tactic(auto)]
