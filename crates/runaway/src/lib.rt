// Refusal 4, number by number (specs/), and why the chain's flags say just that (proofs/). Nothing runs here; `promises` holds the promise.
#![tactic(auto)]
