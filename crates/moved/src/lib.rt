// A macroblock rebuilt at another place: what it looks like hangs on its record and on the samples around it, not on where it stands: definitions and laws
// only.
#![tactic(auto)]
