// The eight inputs' stored numbers (document 01, "Monitors"): fresh, which are qualified, one of them altered by a measurement, a lock alarm or a Hit, and
// some of them put at their bucket's size by a call (document 02, #104).
// Each number has a row of eight, input 1 first. An alteration makes the whole row anew, eight lanes side by side.
#![tactic(auto)]

ghost use Rattle.std.specs.Prelude.{◌≡◌, ◌-◌, ◌&&◌, eqb, nat_abs, get_or, replicate, if◌then◌else◌};
ghost use Rattle.rules.specs.Words.{is_input};
ghost use Rattle.rules.specs.Monitors.{full_soak, qualified, unsoaked, lock_alarmed, measured, fresh_input};
ghost use Rattle.rules.specs.Inputs.{input, altered};
ghost use Rattle.rules.specs.Buckets.{put_at_size};
ghost use Rattle.buckets.specs.Bridge.{eight};
ghost use Rattle.rules.specs.Reading.{qualified_mask};
ghost use Rattle.inputs.specs.Bridge.{is_set, frequency_number, inputs_of, with_activity, with_frequency, with_lock_alarms, with_soak};

use arith::{eight_of, either, is_input, mask_of};
use buckets::{Row, at_input};
use std::array::from_fn;

// The soak of a qualified input.
pub const FULL_SOAK: u16 = 79;

// The ticks of a lock alarm.
const ALARM_TICKS: u16 = 782;

// The rows: the bucket's level and decay count, the activity alarm, the frequency alarm, the lock alarm's remainder, the soak. An alarm is set when it is
// not 0: the host lends these bytes, and every number that lies in them means something.
#[repr(C)]
#[derive(Drop)]
pub struct Monitors {
    pub level: Row,
    pub decay: Row,
    pub activity: Row,
    pub frequency: Row,
    pub remainder: Row,
    pub soak: Row,
}

// The rule `frequency_after`, as a number: 1 where the alarm is set anew.
fn frequency_of(reject: u16, limit: u16, magnitude: u16, frequency: u16) -> u16
    ensures { result ≡ frequency_number reject limit magnitude frequency }
{
    either(
        reject < magnitude,
        1,
        either(magnitude <= limit, 0, frequency),
    )
}

// That of each input, as if the measurement were its own.
fn judged(row: Row, reject: u16, limit: u16, magnitude: u16) -> Row
    ensures { result ≡ eight (λ k. frequency_number reject limit magnitude (get_or row k 0)) }
{
    eight_of(|k| frequency_of(reject, limit, magnitude, row[k]))
}

// One value for each input that is concerned; the others keep theirs.
fn replaced(concerned: Row, v: u16, row: Row) -> Row
    ensures { result ≡ eight (λ k. if is_set (get_or concerned k 0) then v else get_or row k 0) }
{
    eight_of(|k| either(concerned[k] != 0, v, row[k]))
}

// The test of each input's soak: it is that of a qualified input.
fn full(soak: Row) -> [bool; 8]
    ensures { result ≡ eight (λ k. eqb (get_or soak k 0) full_soak) }
{
    from_fn(|k| soak[k] == FULL_SOAK)
}

impl Monitors {
    // An input is its number, as an event or a choice has it (crates/arith): past 8 none is altered, and at 0 input 1, as by the rule `altered`.
    // Each contract is an equation with a rule, through `inputs_of` of specs/Bridge.

    // "Fresh: all counts 0, activity alarms clear, frequency alarms set"
    // Not: frequency alarms clear; a soak of 79.
    #[tactic(auto, unfolding(crate::specs::Bridge::inputs_of, rules::specs::Monitors::fresh_input))]
    pub fn fresh() -> Monitors
        ensures { inputs_of result ≡ replicate 8 fresh_input }
    {
        Monitors {
            level: [0; 8],
            decay: [0; 8],
            activity: [0; 8],
            frequency: [1; 8],
            remainder: [0; 8],
            soak: [0; 8],
        }
    }

    // A measurement of input i: `measured`. Offset and limits are in one unit. Of what is stored only frequency alarms change.
    // Not: an offset at a limit counts as above it; the alarm of another input.
    pub fn measure(&mut self, i: u8, offset: i16, reject: u16, limit: u16)
        ensures inputs { inputs_of self.new ≡ altered (measured reject limit offset) i (inputs_of self.old) }
        ensures rows { self.new ≡ with_frequency self.old self.new.frequency }
    {
        let magnitude = offset.unsigned_abs();
        let values = judged(self.frequency, reject, limit, magnitude);
        self.frequency = at_input(self.frequency, u32::from(i).max(1), values);
    }

    // The lock alarm of input i: `lock_alarmed`. Of what is stored only remainders and soaks change.
    // Not: 783 ticks; the soak left.
    pub fn alarm(&mut self, i: u32)
        ensures inputs { inputs_of self.new ≡ altered lock_alarmed i (inputs_of self.old) }
        ensures rows { self.new ≡ with_lock_alarms self.old self.new.remainder self.new.soak }
    {
        self.remainder = at_input(self.remainder, i.max(1), [ALARM_TICKS; 8]);
        self.soak = at_input(self.soak, i.max(1), [0; 8]);
    }

    // The soak of input i at 0: `unsoaked`. Of what is stored only soaks change.
    // Not: a soak of 1; another input's soak.
    pub fn unsoak(&mut self, i: u32)
        ensures inputs { inputs_of self.new ≡ altered unsoaked i (inputs_of self.old) }
        ensures rows { self.new ≡ with_soak self.old self.new.soak }
    {
        self.soak = at_input(self.soak, i.max(1), [0; 8]);
    }

    // The rule `put_at_size`: of the concerned inputs the level is the size, the decay count 0, and the activity alarm set. Nothing else changes.
    // Not: the decay count kept; every input put at size.
    pub fn put_at_size(&mut self, concerned: Row, size: u16)
        ensures inputs { inputs_of self.new ≡ put_at_size (λ i. is_set (get_or concerned (i - 1) 0)) size (inputs_of self.old) }
        ensures rows { self.new ≡ with_activity self.old self.new.level self.new.decay self.new.activity }
    {
        self.level = replaced(concerned, size, self.level);
        self.decay = replaced(concerned, 0, self.decay);
        self.activity = replaced(concerned, 1, self.activity);
    }

    // The mask of the qualified inputs, as 0x46 shows it.
    // Not: bit 6 by input 6; qualified at a soak of 78.
    pub fn qualified_mask(&self) -> u8
        ensures { result ≡ qualified_mask (inputs_of self.now) }
    {
        mask_of(full(self.soak))
    }

    // Whether c is the number of an input that is qualified.
    // Not: 9 taken for an input; qualified at a soak of 78.
    pub fn qualified_at(&self, c: u32) -> bool
        ensures { result ≡ (is_input c && qualified (input (inputs_of self.now) c)) }
    {
        is_input(c) && self.soak[c as usize - 1] == FULL_SOAK
    }
}
