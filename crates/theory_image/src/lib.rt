// Theorems on reading, writing, viewing and rewriting an image, in specs/. No code.
#![tactic(auto)]
