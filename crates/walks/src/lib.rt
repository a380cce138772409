// Paths, walks and what a build promises a query are statements about the definitions: specs/ has them, proofs/ their laws.

#![tactic(auto)]
