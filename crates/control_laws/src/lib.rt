// No code: specs/ has what the stages of control transfers keep.
#![tactic(auto)]
