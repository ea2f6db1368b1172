// Wrong answers of the exported functions, in specs/, each with the theorem that it contradicts the contract. No code.
#![tactic(auto)]
