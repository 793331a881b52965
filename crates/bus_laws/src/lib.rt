// No code: specs/ has what holds of orders, queries, resets, power and events.
#![tactic(auto)]
