// The limit that the sizes of numbers follow from.
#![tactic(auto)]

// The greatest number of accepted references.
pub const REFERENCE_LIMIT: u32 = 50000;
