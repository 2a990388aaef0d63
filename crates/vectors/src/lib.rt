// The definitions computed on fixed trees and held against the original Rust (proofs/Vectors, Rooms), and at their limits (Limits). This crate has no code.

#![tactic(auto)]
