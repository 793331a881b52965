// No code: specs/ has that readings by pieces of the state are the readings on the state.
#![tactic(auto)]
