// Laws of the witness search as defined, which its code and the laws of builds cite.

#![tactic(auto)]
