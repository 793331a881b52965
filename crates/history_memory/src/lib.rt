// No code: what a call does to soundness, and to what is remembered of the calls.
#![tactic(auto)]
