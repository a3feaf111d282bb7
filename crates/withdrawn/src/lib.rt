// The theorems about numbers that are closed, compacted away and added between lists of calls. It has no code.
#![tactic(auto)]
