// The search of the header read as definitions, and demand 3 as a theorem about them: specs/ and proofs/. No code.
#![tactic(auto)]
