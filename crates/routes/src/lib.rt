// The demands of document 01 are statements about the definitions: specs/ states them, proofs/ proves them.

#![tactic(auto)]
