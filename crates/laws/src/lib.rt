// Laws on truth values and on lists of words that the proofs of several crates cite. No code.
#![tactic(auto)]
