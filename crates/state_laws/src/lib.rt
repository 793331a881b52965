// No code: specs/ has what holds of slots, and of a state that is put together anew.
#![tactic(auto)]
