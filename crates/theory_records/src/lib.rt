// Theorems on importing the records of tables, in specs/. No code.
#![tactic(auto)]
