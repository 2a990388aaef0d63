// The definitions of the scoper stand in specs/, what is proved of them in proofs/: this crate has no code.

#![tactic(auto)]
