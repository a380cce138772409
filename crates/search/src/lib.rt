// The witness search of contraction hierarchies.
#![tactic(auto)]

pub mod witness_search;
