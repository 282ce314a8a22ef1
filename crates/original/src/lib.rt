// The customer's subscriptions.rs as rules of its own, written from the Rust, and the proof that document 01's machine does the same: demand 2.
// Definitions in specs/, theorems in proofs/. Nothing runs here.
#![tactic(auto)]
