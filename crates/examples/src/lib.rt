// Document 01's box of examples, and values that the definitions come to: statements in specs/, proved in proofs/. It has no code.
#![tactic(auto)]
