// The theorems about the radio's rounds. It has no code.
#![tactic(auto)]
