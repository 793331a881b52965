// No code: specs/ has document 01's starred edges, as rows of one table.
#![tactic(auto)]
