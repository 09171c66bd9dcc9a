// Tick steps 1 and 2 of the eight inputs (document 01, "Monitors (tick steps 1, 2)"): bucket, activity alarm, the lock alarm's remainder, soak.
// Each number's row of eight is computed as a row, by a function of one input's numbers, those of its bucket among them (document 02, #104).
// Each contract is an equation with a rule: a last count stands there for its ticks (`ticks_of`), and a row for a function of the lane (`eight`).
#![tactic(auto)]

ghost use Rattle.std.specs.Prelude.{◌≡◌, ◌+◌, ◌-◌, min, max, leb, get_or};
ghost use Rattle.rules.specs.Monitors.{level_after, good, soak_after};
ghost use Rattle.rules.specs.Tick as Tick;
ghost use Rattle.buckets.specs.Bridge.{eight, ticks_of, bucket_at};
ghost use Rattle.inputs.specs.Bridge.{is_set, inputs_of};
ghost use Rattle.monitor.specs.Rows.{weight, decay_number, activity_number};

use arith::{eight_of, either};
use buckets::{Numbers, Row};
use inputs::{FULL_SOAK, Monitors};

// ---- one input: `size`, `high`, `low` and `last` are its bucket's size, set level, clear level and last decay count
// The first three are tests: of `saturating_add(1).min(most)`, `saturating_sub(1)` and `max` the compiler did not compute eight lanes side by side.

// One more, at most `most`: a count that rises.
fn up(n: u16, most: u16) -> u16
    ensures { result ≡ min most (n + 1) }
{
    if n < most { n + 1 } else { most }
}

// One less, not below 0: a count that falls.
fn down(n: u16) -> u16
    ensures { result ≡ n - 1 }
{
    if n == 0 { 0 } else { n - 1 }
}

// The larger of two.
fn larger(a: u16, b: u16) -> u16
    ensures { result ≡ max a b }
{
    if a < b { b } else { a }
}

// Whether a clean tick brings the decay count to its end.
fn decays(last: u16, decay: u16) -> bool
    ensures { result ≡ leb (ticks_of last) (decay + 1) }
{
    last % 256 <= decay
}

// The rule `level_after`.
#[tactic(auto, unfolding(rules::specs::Monitors::level_after))]
fn level_of(size: u16, last: u16, bad: bool, level: u16, decay: u16) -> u16
    ensures { result ≡ level_after size (ticks_of last) bad level decay }
{
    either(
        bad,
        up(level, size),
        either(decays(last, decay), down(level), level),
    )
}

// The rule `decay_after`, by the weight of the input's bit: of an irregular tick it is above every last count. One test in place of two, so that eight lanes
// are chosen side by side.
#[tactic(auto, unfolding(crate::specs::Rows::decay_number))]
fn decay_of(last: u16, weight: u16, decay: u16) -> u16
    ensures { result ≡ decay_number last weight decay }
{
    either(larger(weight, decay) < last % 256, up(decay, last), 0)
}

// The rule `alarm_after`, as a number: 1 where it is set anew.
#[tactic(auto, unfolding(crate::specs::Rows::activity_number))]
fn activity_of(high: u16, low: u16, level: u16, activity: u16) -> u16
    ensures { result ≡ activity_number high low level activity }
{
    either(high <= level, 1, either(level <= low, 0, activity))
}

// The rule `soak_after`, of an input with these alarms.
#[tactic(auto, unfolding(rules::specs::Monitors::good, rules::specs::Monitors::soak_after))]
fn soak_of(activity: u16, frequency: u16, remainder: u16, soak: u16) -> u16
    ensures { result ≡ soak_after (good (is_set activity) (is_set frequency) remainder) soak }
{
    either(
        activity == 0 && frequency == 0 && remainder == 0,
        up(soak, FULL_SOAK),
        0,
    )
}

// ---- rows of eight

// The irregular mask as a row: the weight of each input's bit, 256 or more, or 0.
fn irregular_row(mask: u8) -> Row
    ensures { result ≡ eight (weight mask) }
{
    let m = u16::from(mask);
    eight_of(|k| m / (1 << k) % 2 * (256 << k))
}

fn level_row(s: Row, t: Row, b: Row, l: Row, d: Row) -> Row
    ensures { result ≡ eight (λ k. level_after (get_or s k 0) (ticks_of (get_or t k 0)) (is_set (get_or b k 0)) (get_or l k 0) (get_or d k 0)) }
{
    eight_of(|k| level_of(s[k], t[k], b[k] != 0, l[k], d[k]))
}

fn decay_row(t: Row, b: Row, d: Row) -> Row
    ensures { result ≡ eight (λ k. decay_number (get_or t k 0) (get_or b k 0) (get_or d k 0)) }
{
    eight_of(|k| decay_of(t[k], b[k], d[k]))
}

fn activity_row(h: Row, w: Row, l: Row, a: Row) -> Row
    ensures { result ≡ eight (λ k. activity_number (get_or h k 0) (get_or w k 0) (get_or l k 0) (get_or a k 0)) }
{
    eight_of(|k| activity_of(h[k], w[k], l[k], a[k]))
}

fn remainder_row(r: Row) -> Row
    ensures { result ≡ eight (λ k. get_or r k 0 - 1) }
{
    eight_of(|k| down(r[k]))
}

fn soak_row(a: Row, f: Row, r: Row, s: Row) -> Row
    ensures { result ≡ eight (λ k. soak_after (good (is_set (get_or a k 0)) (is_set (get_or f k 0)) (get_or r k 0)) (get_or s k 0)) }
{
    eight_of(|k| soak_of(a[k], f[k], r[k], s[k]))
}

// The rule `watched`: steps 1 and 2, in the rows where they lie, with the buckets of these four rows. The frequency alarms stay.
// Not: the alarm set at U + 1; the alarm cleared at L - 1, or at L + 1; a level of S + 1; the level falls a tick late; input 1's bucket for all; good by the
// remainder before it fell; a soak that stays in a tick that is not good; two inputs swapped.
pub fn watched(mask: u8, m: &mut Monitors, n: &Numbers)
    ensures inputs { inputs_of m.new ≡ Tick.watched (λ i. bucket_at n.now.sizes n.now.highs n.now.lows n.now.lasts (i - 1)) mask (inputs_of m.old) }
    ensures frequency { m.new.frequency ≡ m.old.frequency }
{
    let bad = irregular_row(mask);
    let level = level_row(n.sizes, n.lasts, bad, m.level, m.decay);
    let decay = decay_row(n.lasts, bad, m.decay);
    let activity = activity_row(n.highs, n.lows, level, m.activity);
    let remainder = remainder_row(m.remainder);
    m.soak = soak_row(activity, m.frequency, remainder, m.soak);
    m.level = level;
    m.decay = decay;
    m.activity = activity;
    m.remainder = remainder;
}
