// Cuts of a recording (02, 2026-07). No code: specs/ has the definitions and the theorems, proofs/ the proofs.
#![tactic(auto)]
