// The rehearsal tool's script: its lines read into words, and its answers written.
#![tactic(auto)]

pub mod answers;
pub mod decimals;
mod hex;
pub mod input;
pub mod lent;
pub mod vocabulary;
pub mod words;
