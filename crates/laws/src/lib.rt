// Laws about the rules that the proofs of the calls cite: they stand in proofs/, and no function stands here.
#![tactic(auto)]
