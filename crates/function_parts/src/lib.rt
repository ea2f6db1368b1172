// The words of a function of a source that passed intake: where its declarations, its expressions, its named expressions and its body are, and what their words
// may be. Theorems for the code that imports functions. No code.
#![tactic(auto)]
