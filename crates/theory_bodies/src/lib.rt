// Theorems on importing a function's body, in specs/. No code.
#![tactic(auto)]
