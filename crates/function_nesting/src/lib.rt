// A function imported by passes over its cells, with the functions that it calls: definitions for the code that does so, and the theorem that it is the model's
// import. No code.
#![tactic(auto)]
