// No code: specs/ has how a single transfer should go, and what that amounts to.
#![tactic(auto)]
