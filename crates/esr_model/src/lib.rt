//! What a repository holds: the definitions that the other crates speak of.
#![tactic(auto)]
