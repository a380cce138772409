// The preparation graph of contraction hierarchies in a lent pool, and the check of the links that it is made of.
#![tactic(auto)]

pub mod preparation_graph;
