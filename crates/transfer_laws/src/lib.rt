// No code: specs/ has what holds of the calls on transfers.
#![tactic(auto)]
