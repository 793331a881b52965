// No code: specs/ has how an interrupt's call ends in both cases, and that five readings look at a part of what is in sight.
#![tactic(auto)]
