// Facts on Booleans and lists that have nothing to do with shader modules, in specs/. No code.
#![tactic(auto)]
