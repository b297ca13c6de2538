// Units that only seem to work (specs/), and why none of them meets the demands (proofs/). Nothing runs here; `promises` holds the promise.
#![tactic(auto)]
