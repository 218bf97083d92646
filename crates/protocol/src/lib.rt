#![tactic(auto)]

// No code: this crate is definitions (specs/) and theorems about them (proofs/) alone.
