// Lists of any element type, as the floors above speak of them: definitions in specs/, laws in proofs/. Nothing runs here.
#![tactic(auto)]
