// Demand 1 over every call of the product: the log, the console, the line reader, the board, the receiver and the trail reader. This crate has no code of its own.
#![tactic(auto)]
