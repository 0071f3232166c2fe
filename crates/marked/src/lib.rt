#![tactic(auto)]

// No code: the numbers that document 01 marks, as what a step or a read gives on a whole image.
