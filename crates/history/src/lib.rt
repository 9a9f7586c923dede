// The demands on the log, as theorems over the definitions that its calls promise. This crate has no code of its own.
#![tactic(auto)]
