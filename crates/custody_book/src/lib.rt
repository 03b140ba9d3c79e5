// The history of one card: the paper's book, the calls, that they agree, and what that means (specs/), and the proofs (proofs/). No code.
#![tactic(auto)]
