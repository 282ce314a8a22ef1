// Document 01 as rules, with what is proved of them: definitions in specs/, theorems in proofs/. Nothing runs here.
#![tactic(auto)]
