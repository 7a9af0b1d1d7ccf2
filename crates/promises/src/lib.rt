// No code: what is promised of any sequence of calls, stated in specs/ and proved in proofs/.
#![tactic(auto)]
