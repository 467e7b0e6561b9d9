// Nothing to run: what it is to be a public call, and laws for proofs by hand, of which there are none now.
#![tactic(auto)]
