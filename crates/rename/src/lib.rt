// Only sameness of page numbers counts: renaming pages one-to-one renames the answer and changes nothing else. No code.
#![tactic(auto)]
