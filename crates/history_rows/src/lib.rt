// No code: specs/ has the rows of a history, and what they tell of the device.
#![tactic(auto)]
