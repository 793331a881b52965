// No code: specs/ has what the operations of calls do to the chain registers and to the device address.
#![tactic(auto)]
