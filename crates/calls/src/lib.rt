// The macroblock call: its table of refusals and what it leaves; runs of calls in any order, and why a finished picture is the right one: definitions and laws
// only.
#![tactic(auto)]
