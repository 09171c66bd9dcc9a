// Small functions on numbers that several crates use. None has an early return, so that eight lanes can be computed side by side.
// An input or a source is a number in every crate, as events, registers and the host (C interface) have it: 1 to 8, 9 for Free Run, and 0 for none.
#![tactic(auto)]

ghost use Rattle.std.specs.Prelude.{◌≡◌, ◌-◌, ◌^◌, ◌<◌, ◌≤◌, ℕ, false, get_or, if◌then◌else◌};
ghost use Rattle.rules.specs.Words.{is_input, is_tracked, is_counted};
ghost use Rattle.rules.specs.Reading.{mask_up_to};
ghost use Rattle.arith.specs.Eight.{Eight};

// The rules' choice by a test.
// Not: always the first; the second where the test passes.
pub fn either<T: Copy>(c: bool, a: T, b: T) -> T
    ensures { result ≡ (if c then a else b) }
{
    if c { a } else { b }
}

// "1 to 8" has three roles: the number of an input, a source that the PLL tracks, and a reference that counts for the history.
// Not: 0 is one; 9, Free Run, is one.
pub fn is_input(c: u32) -> bool
    ensures input { result ≡ is_input c }
    ensures tracked { result ≡ is_tracked c }
    ensures counted { result ≡ is_counted c }
{
    1 <= c && c <= 8
}

// The values that a function gives for the lanes 0 to 7. The calls are written out: the compiler computes those side by side, and not those of a loop as that of
// `std::array::from_fn`.
// Not: lane 0's value for all; the lanes in the other order.
pub fn eight_of<T: Copy, F: Fn(usize) -> T>(f: F) -> [T; 8]
    requires { (k : ℕ) → k < 8 → F.pre f k }
    ensures { Eight (F.post f) result }
{
    [f(0), f(1), f(2), f(3), f(4), f(5), f(6), f(7)]
}

// What a test adds to a mask: the weight of its lane, or 0.
fn weigh(test: bool, k: usize) -> u16
    requires { k < 8 }
    ensures { (result ≡ (if test then 2 ^ k else 0)) × (result ≤ 2 ^ k) }
{
    either(test, 1 << k, 0)
}

// The mask of eight tests, the first in bit 0. It is summed in wider numbers, and the last test first, so that eight tests are weighed side by side.
// Not: a test in its neighbour's bit; the first test in bit 7.
#[tactic(auto, unfolding(rules::specs::Reading::mask_up_to))]
pub fn mask_of(tests: [bool; 8]) -> u8
    ensures { result ≡ mask_up_to (λ i. get_or tests (i - 1) false) 8 }
{
    let w = eight_of(|k| weigh(tests[k], k));
    let sum = w[7] + (w[6] + (w[5] + (w[4] + (w[3] + (w[2] + (w[1] + w[0]))))));
    sum as u8
}
