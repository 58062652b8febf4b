// Steps that rebuild parts of a memory, what each waits for, and why any permitted order ends the same: definitions and laws only.
#![tactic(auto)]
