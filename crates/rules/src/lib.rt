// No code: what each call comes to, as document 01 says, on the words and octets that were lent (specs/), and the theorems about it (proofs/).
#![tactic(auto)]
