#![tactic(auto)]

// No code: this crate is laws (proofs/) alone.
