// The laws of clocks, loads and places, and that soundness lasts. No code: specs/ has the statements, proofs/ the proofs.
#![tactic(auto)]
