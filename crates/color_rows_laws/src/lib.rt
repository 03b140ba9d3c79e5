// The rows of a conversion are the paper's equations, exactly: statements (specs/) and their proofs (proofs/). No code.
#![tactic(auto)]
