// The status mark does not depend on the result: no code, but what holds of every engine, from the place from which all of them can be seen.
#![tactic(auto)]
