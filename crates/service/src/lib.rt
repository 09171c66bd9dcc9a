// What a host holds after any list of calls, by the contracts of crates/host alone: demands 2 and 3 of the unit itself, and requests #102 and #104 to #107.
// There is no code: specs/ has the statements, proofs/ their proofs.
#![tactic(auto)]
