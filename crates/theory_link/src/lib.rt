// Demand 3, the theorem on linking, in specs/: on words, and on bytes. No code.
#![tactic(auto)]
