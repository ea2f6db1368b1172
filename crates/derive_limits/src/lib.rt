// Theorems on refusal 21, in specs/: the code's arrays are full exactly where the model's image is too large. No code.
#![tactic(auto)]
