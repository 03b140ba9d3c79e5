// No code: proofs/ shows that lines and pictures may be worked out part by part.
#![tactic(auto)]
