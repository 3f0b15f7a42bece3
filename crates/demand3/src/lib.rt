// Demand 3: one rehearsal serves every board whose buffer is no smaller. No code: specs/ has the statement, proofs/ the proof.
#![tactic(auto)]
