// The rules for frames, settings calls, resets and layout calls, the Rust over a history and BS.1770 over it (specs/), and why the chain meets demands
// 1 and 2 over every list of them (proofs/). Nothing runs here; `promises` holds what is promised.
#![tactic(auto)]
