// No code: specs/ has what holds of interrupts: how they end, how long their lists are, and what they keep.
#![tactic(auto)]
