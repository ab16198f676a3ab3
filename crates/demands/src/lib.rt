// The demands, each sentence a statement (specs/) with its proof (proofs/), over the claims of the public calls. No code.
#![tactic(auto)]
