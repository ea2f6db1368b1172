// Theorems on walks, in specs/: scope is sound, and agreement carries walks. No code.
#![tactic(auto)]
