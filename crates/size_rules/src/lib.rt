// The smallest size that plays a session (02, 2026-05). No code: specs/ has the definitions and the theorems, proofs/ the proofs.
#![tactic(auto)]
