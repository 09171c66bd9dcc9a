// Laws of lending: a function that is lent a struct lends arrays that lie in it to another, where they lie. They are of any struct, and say nothing of a unit;
// crates/thin has the unit. There is no code: proofs/ has the laws.
#![tactic(auto)]
