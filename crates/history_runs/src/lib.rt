// No code: specs/ has what every list of calls is to be, proofs/ that it is so where each call does what is said of it.
#![tactic(auto)]
