// No code: specs/ has that the slot of a transfer goes as the transfer should.
#![tactic(auto)]
