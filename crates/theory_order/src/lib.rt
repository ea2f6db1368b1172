// Theorems on ranks, output order and rings, and on the callees that decide them, in specs/. No code.
#![tactic(auto)]
