// The demands over whole lists of calls: specs/ states them for any rules and port, proofs/ has them from laws of single calls. Nothing runs here.
#![tactic(auto)]
