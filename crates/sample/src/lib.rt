#![tactic(auto)]

// No code: one run whose books are computed.
