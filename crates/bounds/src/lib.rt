#![tactic(auto)]

// Three histories of the promise of service, on which its provisos are met and its numbers cannot be bettered: the statements in specs/, their proofs in proofs/.
// There is no code here.
