// What holds of any session, in specs/. No code.
#![tactic(auto)]
