// Under LRU a pool of f frames holds the f most recently used pages, so the misses of a replay are those that the distances foretell. No code.
#![tactic(auto)]
