#![tactic(auto)]

// No code: theorems that every change of the register block keeps it good.
