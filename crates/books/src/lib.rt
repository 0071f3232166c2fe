#![tactic(auto)]

// No code: the books of every mailbox, and the theorem that they balance and that the flags tell the truth.
