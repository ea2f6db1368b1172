// A session as the arrays hold it, in specs/: the session that they mean, when they are valid between two operations, and that empty arrays are a new session. No code.
#![tactic(auto)]
