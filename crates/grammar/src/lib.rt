// Acceptance stated a second time, as a grammar (specs/), and that it says what the judgement says (proofs/). No code.
#![tactic(auto)]
