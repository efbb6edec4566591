// What a check holds of a plan file that comes byte by byte: definitions in specs/, the theorem in proofs/. There is no code.

#![tactic(auto)]
