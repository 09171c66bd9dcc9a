// Laws of thin functions: of a function that is lent a unit, lends arrays of it on to another one, and stores or returns what that gives. The functions of the
// crate host need none of them today, since the check proves a unit that is lent whole; they hold of every function of these forms. No code, but for the struct
// that such a function may be given.
#![tactic(auto)]

use state::Core;

// A number, and the core that is stored where the number is 0.
// No `Result`: of this form are the functions that the laws of proofs/Stores are about, and no function of a crate today.
#[derive(Clone, Copy)]
pub struct Stepped {
    pub refusal: u8,
    pub core: Core,
}
