// The rules page as definitions (specs/) and laws about them (proofs/). No code is here.
#![tactic(auto)]
