#![tactic(auto)]

// The documents' worked cases, as tables computed from the rules: statements in specs/, proofs in proofs/. There is no code here.
