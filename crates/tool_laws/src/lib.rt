// No code: specs/ has what holds of lines by their places, of words, names and text, and of the pattern and the sum of bytes.
#![tactic(auto)]
