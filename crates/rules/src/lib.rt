#![tactic(auto)]

// The rules of the documents: definitions in specs/; their laws, the promise of service and the comparison of #102 in proofs/. There is no code here.
