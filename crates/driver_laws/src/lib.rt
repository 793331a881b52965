// No code: specs/ has what holds of making, allocating and starting a driver.
#![tactic(auto)]
