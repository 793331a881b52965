// No code: a history written out with what it comes to, and wrong histories that the statements refuse.
#![tactic(auto)]
