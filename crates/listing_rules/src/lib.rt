// The text of a listing: its numbers and lines. No code: specs/ has the definitions and their laws, proofs/ the proofs.
#![tactic(auto)]
