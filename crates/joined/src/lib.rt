// The theorem that joins the cab radio's rounds with the node. It has no code.
#![tactic(auto)]
