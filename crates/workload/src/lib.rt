// What the programs that bench/ times share: the numbers of an input, the text of the records that a log is filled with, and a checksum.
#![tactic(auto)]

pub mod checksum;
pub mod numbers;
pub mod text;
