// No functions: the definitions and laws that every crate cites.
#![tactic(auto)]
