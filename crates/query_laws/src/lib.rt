// Laws of queries as defined, on any tables that keep the promise of a build.

#![tactic(auto)]
