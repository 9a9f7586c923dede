// Document 01's moments to try and its refusals, as tables that the definitions are held to. This crate has no code of its own.
#![tactic(auto)]
