// The holdover value (document 01, "History (step 5)"): the mean of the kept samples, rounded down, and its 32 bits as 0x4a to 0x4d show them.
// Each contract is an equation with a rule of crates/rules/specs; the rule is named above the function.
#![tactic(auto)]

ghost use Rattle.std.specs.Prelude.{◌≡◌, List, ℤ};
ghost use Rattle.rules.specs.History.{value};
ghost use Rattle.rules.specs.Reading.{twos};
ghost use Rattle.history.specs.Bridge.{history_of};

use history::{Sums, Tally, within};

// `twos`: a number's 32 bits in two's complement.
// Not: one too large below 0; the sign lost.
#[tactic(auto, unfolding(rules::specs::Reading::twos))]
pub fn twos(z: i64) -> u32
    ensures { result ≡ twos z }
{
    (z.cast_unsigned() & 0xffff_ffff) as u32
}

// `value`: the greatest whole number not above the mean of the kept samples; 0 where no block is kept.
// Not: 127 samples a block; one sum less.
pub fn value(t: Tally, sums: &Sums) -> i64
    ensures { (building backup : List ℤ) → result ≡ value (history_of t sums.now building backup) }
{
    let n = t.count.min(64);
    let mut sum = 0;
    for s in &sums[..usize::from(n)] {
        sum += within(*s);
    }
    sum.checked_div_euclid(128 * i64::from(n)).unwrap_or(0)
}
