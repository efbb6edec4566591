// What holds of the rules: statements in specs/, their proofs in proofs/. There is no code.

#![tactic(auto)]
