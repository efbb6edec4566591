// Document 01 as definitions, in specs/; every other crate cites them. There is no code.

#![tactic(auto)]
