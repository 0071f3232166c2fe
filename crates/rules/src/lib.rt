#![tactic(auto)]

// No code: the rulebook, document 01 sentence by sentence and of document 02 the outcome of b) and the DLC of c), over the words and bits
// of an image, and that the step meets it.
