// Theorems on what finishing writes, in specs/: names, size, and that the image passes the tests again. No code.
#![tactic(auto)]
