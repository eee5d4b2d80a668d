// The user's demands as statements about the six services (specs/), and the proof that they are met (proofs/). No code is here.
#![tactic(auto)]
