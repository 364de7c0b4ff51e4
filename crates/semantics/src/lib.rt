// The rules, the translation and their theorems stand in specs/ and proofs/; there is no code here.

#![tactic(auto)]
