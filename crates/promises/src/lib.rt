// No code: what the users are promised, and the accounts of notices, over the rules (specs/, proofs/).
#![tactic(auto)]
