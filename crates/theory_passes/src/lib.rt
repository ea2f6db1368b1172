// The import of a function restated as passes over the cells of its record, in specs/, with the theorem that it is the model's import. No code.
#![tactic(auto)]
