// What is demanded of the rules as a whole: specs/ states it and proofs/ shows it; no function stands here.
#![tactic(auto)]
