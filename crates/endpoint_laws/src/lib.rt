// No code: specs/ has what holds of sends and receives over all their pieces.
#![tactic(auto)]
