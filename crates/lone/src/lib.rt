#![tactic(auto)]

// No code: what the error counter of a tool does that nobody acknowledges.
