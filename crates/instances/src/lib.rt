// Theorems at work. No code: specs/ has what follows at concrete files, sessions and cuts, proofs/ that it does.
#![tactic(auto)]
