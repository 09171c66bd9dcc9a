// The four sets of bucket numbers and the set of each input (document 02, #104): fresh, as four rows of eight for the ticks, and set or assigned anew.
// A set's numbers are its size, the level that sets the activity alarm, the level that clears it, and the last decay count: one less than the ticks of a
// decay.
// Inputs, sets and their numbers go as C hands them over (C interface): `check_set` and `check_assign` turn down what is none. Each stored number is valid.
#![tactic(auto)]

ghost use Rattle.std.specs.Prelude.{◌≡◌, [], ◌∷◌, ◌+◌, ◌-◌, ◌/◌, ◌%◌, ◌^◌, ◌≤◌, min, eqb, get_or, if◌then◌else◌};
ghost use Rattle.rules.specs.Buckets as rules;
ghost use Rattle.rules.specs.Buckets.{fresh_buckets};
ghost use Rattle.rules.specs.Refusals.{set_refusal, assign_refusal};
ghost use Rattle.refusals.specs.Number.{number};
ghost use Rattle.buckets.specs.Bridge.{four, eight, byte_of, bucket_in, word_of, word_from, with_word, with_number, buckets_of, numbers_of};

use arith::{eight_of, either, is_input};
use refusals::Refusal;
use std::array::from_fn;

// A row of eight numbers, one for each input, input 1 first. What an input has is spread over rows, one for each quantity, and not kept in a struct for each
// input: so the eight are computed side by side.
// A flag in a row is a number, not 0 where it is set: of the width of the numbers that are chosen by it, so that eight are chosen side by side.
pub type Row = [u16; 8];

// The sets, set 0 first, each in one word: from its lowest byte up the size, the set level, the clear level, and the last decay count. And the set of each
// input, input 1 first: of its number the two lowest bits count. A word, since at each tick of a host two of its halves are chosen for every input, side by
// side, and then taken apart: two choices in place of four.
// Its functions take it first and by value, as methods would; the two that change it give it back, since a caller stores it where it lies.
#[repr(C)]
#[derive(Clone, Copy)]
pub struct Buckets {
    pub sets: [u32; 4],
    pub assigned: Row,
}

// "Each input has one of four sets, at first set 0 .. All sets start as 8, 6, 4, 1."
// Not: a decay of 1 tick; set 1 for input 8.
#[tactic(auto, unfolding(crate::specs::Bridge::buckets_of, rules::specs::Buckets::fresh_buckets, rules::specs::Buckets::start_bucket, rules::specs::Buckets::bucket_from))]
pub fn fresh_buckets() -> Buckets
    ensures { buckets_of result ≡ fresh_buckets }
{
    Buckets {
        sets: [0x01040608; 4],
        assigned: [0; 8],
    }
}

// ---- rows of eight
// Where a unit is asked to be 1 or more, it is divided by.

// Half of a word: that of the unit 1 or 65,536.
fn half_of(w: u32, unit: u32) -> u16
    requires { 1 ≤ unit }
    ensures { result ≡ w / unit % 65_536 }
{
    (w / unit % 65_536) as u16
}

// Of four numbers, one for each set, that of set n: by choices and not by its place, so that eight are chosen side by side. They are four numbers and no array: a
// short array by value is passed as one number, and cut up again by shifts.
fn of_set(n: u16, a: u16, b: u16, c: u16, d: u16) -> u16
    ensures { result ≡ get_or (a ∷ b ∷ c ∷ d ∷ []) (n % 4) 0 }
{
    let set = n % 4;
    either(set == 1, b, either(set == 2, c, either(set == 3, d, a)))
}

// For each input that of its set.
fn of_sets(assigned: Row, a: u16, b: u16, c: u16, d: u16) -> Row
    ensures { result ≡ eight (word_of (a ∷ b ∷ c ∷ d ∷ []) assigned) }
{
    eight_of(|k| of_set(assigned[k], a, b, c, d))
}

// For each input half of its set's word.
fn halves(b: &Buckets, unit: u32) -> Row
    requires { 1 ≤ unit }
    ensures { result ≡ eight (λ k. word_of b.now.sets b.now.assigned k / unit % 65_536) }
{
    of_sets(
        b.assigned,
        half_of(b.sets[0], unit),
        half_of(b.sets[1], unit),
        half_of(b.sets[2], unit),
        half_of(b.sets[3], unit),
    )
}

// A byte of each half: that of the unit 1 or 256.
fn bytes_of(row: Row, unit: u16) -> Row
    requires { 1 ≤ unit }
    ensures { result ≡ eight (λ k. byte_of (get_or row k 0) unit) }
{
    eight_of(|k| row[k] / unit % 256)
}

// For each input the numbers of its set: sizes, set levels, clear levels, and last decay counts.
#[derive(Clone, Copy)]
pub struct Numbers {
    pub sizes: Row,
    pub highs: Row,
    pub lows: Row,
    pub lasts: Row,
}

// The numbers that a tick takes: they follow from sets and assignments, and change by a call alone.
// Not: set and clear levels in each other's row; the ticks of a decay for its last count.
pub fn numbers_of(b: Buckets) -> Numbers
    ensures { result ≡ numbers_of b }
{
    let lower = halves(&b, 1);
    let upper = halves(&b, 65_536);
    Numbers {
        sizes: bytes_of(lower, 1),
        highs: bytes_of(lower, 256),
        lows: bytes_of(upper, 1),
        lasts: bytes_of(upper, 256),
    }
}

// The size of set n, by the two lowest bits of n.
// Not: set 0's size for every set; the set level.
pub fn size_of(b: Buckets, n: u8) -> u16
    ensures { result ≡ (bucket_in (get_or b.sets (n % 4) 0)).size }
{
    (b.sets[usize::from(n % 4)] % 256) as u16
}

// The inputs that have set n: 1 for each, 0 for the others.
// Not: an input whose set number is 4 left out of set 0; every input.
pub fn having(assigned: Row, n: u8) -> Row
    ensures { result ≡ eight (λ k. if eqb (get_or assigned k 0 % 4) n then 1 else 0) }
{
    let set = u16::from(n);
    eight_of(|k| either(assigned[k] % 4 == set, 1, 0))
}

// ---- what turns a call down

// "L < U ≤ S ≤ 255 and d from 0 to 3"; no byte is over 255.
#[tactic(auto, unfolding(rules::specs::Buckets::in_bounds))]
fn in_bounds(size: u8, high: u8, low: u8, d: u8) -> bool
    ensures { result ≡ rules.in_bounds size high low d }
{
    low < high && high <= size && d <= 3
}

// The rule `set_refusal`: 14 for a set or numbers that are out of bounds.
// Not: L = U passes; d = 4 passes; set 4 passes.
#[tactic(auto, unfolding(rules::specs::Refusals::set_refusal))]
pub fn check_set(n: u8, size: u8, high: u8, low: u8, d: u8) -> Result<(), Refusal>
    ensures { number result ≡ set_refusal n size high low d }
{
    if n <= 3 && in_bounds(size, high, low, d) {
        return Ok(());
    }
    Err(Refusal::BucketOutOfBounds)
}

// The rule `assign_refusal`: 6 for no input, 14 for no set.
// Not: set 4 passes; 14 where 6 fits too.
#[tactic(auto, unfolding(rules::specs::Refusals::assign_refusal))]
pub fn check_assign(i: u8, n: u8) -> Result<(), Refusal>
    ensures { number result ≡ assign_refusal i n }
{
    if !is_input(u32::from(i)) {
        return Err(Refusal::NoInput);
    }
    if n <= 3 {
        return Ok(());
    }
    Err(Refusal::BucketOutOfBounds)
}

// ---- sets and assignments after a call

// "decay of 2^d ticks", for d from 0 to 3: the last count. A d past 3, which no call lets through, counts as 3.
fn last_of(d: u8) -> u8
    ensures { (result ≡ 2 ^ min d 3 - 1) × (result ≤ 7) }
{
    match d {
        0 => 0,
        1 => 1,
        2 => 3,
        _ => 7,
    }
}

// The word of a set.
#[tactic(auto, unfolding(crate::specs::Bridge::word_from))]
fn word_of(size: u8, high: u8, low: u8, d: u8) -> u32
    ensures { result ≡ word_from size high low d }
{
    u32::from_le_bytes([size, high, low, last_of(d)])
}

// The words with that of set n anew: the rule `with_set`, of a set and numbers within the bounds (`set_anew` in proofs/Sets).
// Not: the set beside it anew; a decay of d ticks.
pub fn with_set(b: Buckets, n: u8, size: u8, high: u8, low: u8, d: u8) -> Buckets
    ensures { result ≡ with_word n (word_from size high low d) b }
{
    let word = word_of(size, high, low, d);
    Buckets {
        sets: from_fn(|k| either(usize::from(n) == k, word, b.sets[k])),
        ..b
    }
}

// Input i's place of a row from `values`, and the others as they were.
// Not: the place beside it; the row as it was.
pub fn at_input(row: Row, i: u32, values: Row) -> Row
    ensures { result ≡ eight (λ k. if eqb i (k + 1) then get_or values k 0 else get_or row k 0) }
{
    eight_of(|k| either(i as usize == k + 1, values[k], row[k]))
}

// The set numbers with input i's anew: the rule `with_assigned`, of an input 1 to 8 and a set 0 to 3 (`assigned_anew` in proofs/Sets).
// Not: the number of the input beside it; the other inputs at set 0.
pub fn with_assigned(b: Buckets, i: u8, n: u8) -> Buckets
    ensures { result ≡ with_number i n b }
{
    Buckets {
        assigned: at_input(b.assigned, u32::from(i), [u16::from(n); 8]),
        ..b
    }
}
