// The demands of document 01, of what the compiled calls may leave by their contracts: specs/ states them, proofs/ proves them.

#![tactic(auto)]
