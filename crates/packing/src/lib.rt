// The definitions of star packings and their mathematics: specs/ and proofs/. No function.
#![tactic(auto)]
