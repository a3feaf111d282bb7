// The theorems about calls that start from what an image leaves, and about a node moved by one. It has no code.
#![tactic(auto)]
