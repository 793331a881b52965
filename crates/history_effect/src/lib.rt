// No code: specs/ has what a call is to a data slot and what it does there.
#![tactic(auto)]
