// The meaning of an image, of linking and of a session: definitions that all contracts cite, in specs/. No code.
#![tactic(auto)]
