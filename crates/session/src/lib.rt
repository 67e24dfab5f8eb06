// C's calls one after the other: no code, but what holds of every session, from the place from which all of C's calls can be seen.
#![tactic(auto)]
