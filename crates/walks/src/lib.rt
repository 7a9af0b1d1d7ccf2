// No code: `proofs/` is a kit of proof rules for functions over a lent slice of structs, with a page in proofs/Lib.antt that teaches it.
// No crate here uses it; kept for a function over a row of structs that the check doesn't follow (docs/DECISIONS).
#![tactic(auto)]
