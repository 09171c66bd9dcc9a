// The candidates of the selection (document 01, step 4): the best of them, and which references are available.
// The registers and the inputs' rows are lent for reading. The settings are `settings_from` of the registers. What follows from them alone, the keys, is made
// after a write and handed to the ticks.
// A candidate is its number, as `Choice` stores it, and 0 is none (crates/arith). Each contract is an equation with a rule, through `inputs_of` and
// `settings_from`.
#![tactic(auto)]

ghost use Rattle.std.specs.Prelude.{◌≡◌, ◌+◌, ◌≤◌, ◌&&◌, min, eqb, get_or, if◌then◌else◌};
ghost use Rattle.rules.specs.Monitors.{full_soak};
ghost use Rattle.rules.specs.Settings.{Settings, usable};
ghost use Rattle.rules.specs.Selection.{available, candidate, best};
ghost use Rattle.rules.specs.Registers.{settings_from};
ghost use Rattle.rules.specs.Reading.{mask_up_to, count_up_to};
ghost use Rattle.buckets.specs.Bridge.{eight};
ghost use Rattle.inputs.specs.Bridge.{inputs_of};
ghost use Rattle.candidates.specs.Keys.{no_key, settings_key, keys_from};

use arith::{eight_of, either, is_input, mask_of};
use buckets::Row;
use inputs::{FULL_SOAK, Monitors};
use registers::{FREE_RUN_SLOT, MASK_SLOT, Registers};
use std::array::from_fn;

// The keys of the inputs 1 to 8 and of Free Run.
pub type Keys = [u16; 9];

// Above every key; its number is 0.
// No `Option`, and no pair of priority and number: keys are compared eight side by side, and the least has its candidate's number in it, 0 for none.
const NO_KEY: u16 = 128;

// ---- the keys

// Whether candidate k + 1 may be used by the settings alone: an input that is unmasked, or Free Run, if enabled. Its register lies in slot k.
fn is_usable(regs: &Registers, k: usize) -> bool
    requires { k ≤ 8 }
    ensures { result ≡ usable (settings_from regs.now) (k + 1) }
{
    if k == FREE_RUN_SLOT {
        return regs[FREE_RUN_SLOT] / 16 % 2 == 1;
    }
    (regs[MASK_SLOT] >> k) % 2 == 1
}

// The key of candidate k + 1 by the settings alone.
fn key_of(regs: &Registers, k: usize) -> u16
    requires { k ≤ 8 }
    ensures { result ≡ settings_key (settings_from regs.now) (k + 1) }
{
    let key = u16::from(regs[k] % 8) * 16 + k as u16 + 1;
    either(is_usable(regs, k), key, NO_KEY)
}

// The keys of the inputs 1 to 8 and of Free Run, by the registers alone.
// Not: a masked input has a key; four bits of the priority.
#[tactic(auto, unfolding(crate::specs::Keys::keys_from))]
pub fn keys_of(regs: &Registers) -> Keys
    ensures { result ≡ keys_from (settings_from regs.now) }
{
    // eight side by side, and that of Free Run behind them
    let [a, b, c, d, e, f, g, h] = eight_of(|k| key_of(regs, k));
    [a, b, c, d, e, f, g, h, key_of(regs, FREE_RUN_SLOT)]
}

// ---- the best candidate

// An input's key, if it is qualified.
fn held(soak: u16, key: u16) -> u16
    ensures { result ≡ (if eqb soak full_soak then key else no_key) }
{
    either(soak == FULL_SOAK, key, NO_KEY)
}

// The keys of the qualified inputs.
fn held_row(soak: Row, keys: &Keys) -> Row
    ensures { result ≡ eight (λ j. if eqb (get_or soak j 0) full_soak then get_or keys.now j 0 else no_key) }
{
    eight_of(|j| held(soak[j], keys[j]))
}

// The least of eight keys and a ninth. Halves are compared with halves, so that four at a time can be.
fn least_of_nine(k: Row, ninth: u16) -> u16
    ensures { result ≡ min ninth (min (get_or k 7 0) (min (get_or k 6 0) (min (get_or k 5 0) (min (get_or k 4 0) (min (get_or k 3 0) (min (get_or k 2 0) (min (get_or k 1 0) (get_or k 0 0)))))))) }
{
    let a = k[0].min(k[4]);
    let b = k[1].min(k[5]);
    let c = k[2].min(k[6]);
    let d = k[3].min(k[7]);
    a.min(c).min(b.min(d)).min(ninth)
}

// The rule `best`: the candidate that is ahead of every other, or 0.
// Not: an input at a soak of 78 counts; input 8 left out.
pub fn best_of(m: &Monitors, keys: &Keys) -> u32
    ensures { (set : Settings) → keys.now ≡ keys_from set → result ≡ best set (inputs_of m.now) }
{
    u32::from(least_of_nine(held_row(m.soak, keys), keys[8]) % 16)
}

// ---- candidates

// The rule `candidate`: an available reference, or Free Run if enabled.
// Not: a masked reference is one; Free Run by bit 3.
#[tactic(auto, unfolding(rules::specs::Selection::candidate, rules::specs::Selection::available))]
pub fn is_candidate(m: &Monitors, regs: &Registers, c: u32) -> bool
    ensures { result ≡ candidate (settings_from regs.now) (inputs_of m.now) c }
{
    match c {
        9 => is_usable(regs, FREE_RUN_SLOT),
        1..=8 => is_usable(regs, c as usize - 1) && m.qualified_at(c),
        _ => false,
    }
}

// The test of each input: it is unmasked and qualified. `&` and no `&&`: no test of one input leaves the eight.
fn tests(soak: Row, regs: &Registers) -> [bool; 8]
    ensures { result ≡ eight (λ k. usable (settings_from regs.now) (k + 1) && eqb (get_or soak k 0) full_soak) }
{
    from_fn(|k| is_usable(regs, k) & (soak[k] == FULL_SOAK))
}

// The mask of the available references, as 0x47 shows it.
// Not: input 4 by input 5's bit; the mask 0x42 not looked at.
pub fn available_mask(m: &Monitors, regs: &Registers) -> u8
    ensures { result ≡ mask_up_to (available (settings_from regs.now) (inputs_of m.now)) 8 }
{
    mask_of(tests(m.soak, regs))
}

// How many references are available, as 0x4e shows it: the ones of the available mask.
// Not: the masked counted too; the unmasked counted whether qualified or not.
pub fn available_count(m: &Monitors, regs: &Registers) -> u8
    ensures { result ≡ count_up_to (available (settings_from regs.now) (inputs_of m.now)) 8 }
{
    available_mask(m, regs).count_ones() as u8
}
