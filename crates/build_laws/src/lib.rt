// Laws of builds as defined: what a build that was not refused promises a query.

#![tactic(auto)]
