// Writes of registers (document 01, "Registers" and "Turned down"): what turns a write down, and what it stores.
// An address and a value are bytes, as C hands them over (C interface), and a register is told by its address, as in document 01. The settings are
// `settings_from` of the registers. Ready and held are told by the caller: this crate does not know the history.
#![tactic(auto)]

ghost use Rattle.std.specs.Prelude.{◌≡◌, ◌&&◌, ◌+◌, leb, eqb, if◌then◌else◌};
ghost use Rattle.rules.specs.Registers as rules;
ghost use Rattle.rules.specs.Registers.{settings_from};
ghost use Rattle.rules.specs.Refusals.{limits_refused, command_refused, write_refusal};
ghost use Rattle.refusals.specs.Number.{number};

use refusals::Refusal;
use registers::{REGISTERS, Registers, in_map, register_at, setting, slot};

// What a write stores: "inputs 1 to 8: .. bits 7-4 ignored, read 0".
#[tactic(auto, unfolding(rules::specs::Registers::stored))]
fn stored(a: u8, v: u8) -> u8
    ensures { result ≡ rules.stored a v }
{
    if a <= 0x23 { v % 16 } else { v }
}

// The registers after a write that was not turned down, of any address but 0x26, which is a command to the history.
// Of an address that is not in the map nothing is stored.
// Not: bit 4 of an input's register stored; the value stored beside its place.
#[tactic(auto, using(crate::proofs::Writes::write_in, crate::proofs::Writes::write_out))]
pub fn written(regs: &mut Registers, a: u8, v: u8)
    ensures { settings_from regs.new ≡ (if rules.in_map a then rules.written a v (settings_from regs.old) else settings_from regs.old) }
{
    let k = slot(a);
    if k < REGISTERS {
        regs[k] = stored(a, v);
    }
}

// "reject − qualification" is 6 or more.
// Not: limits 5 apart pass; a sum that wraps at 256.
pub fn limits_apart(reject: u8, qualification: u8) -> bool
    ensures { result ≡ leb (qualification + 6) reject }
{
    reject.saturating_sub(qualification) >= 6
}

// 4: "reject − qualification would be under 6".
#[tactic(auto, unfolding(rules::specs::Refusals::limits_refused, rules::specs::Refusals::limits_apart, rules::specs::Registers::written, rules::specs::Registers::stored))]
fn limits_refused(regs: &Registers, a: u8, v: u8) -> bool
    ensures { result ≡ limits_refused (settings_from regs.now) a v }
{
    match a {
        0x44 => !limits_apart(v, setting(regs, 0x45)),
        0x45 => !limits_apart(setting(regs, 0x44), v),
        _ => false,
    }
}

// 8: "command 1 unless Ready, command 2 without backup".
#[tactic(auto, unfolding(rules::specs::Refusals::command_refused))]
fn command_refused(ready: bool, held: bool, a: u8, v: u8) -> bool
    ensures { result ≡ (eqb a 0x26 && command_refused ready held v) }
{
    a == 0x26 && (v == 1 && !ready || v == 2 && !held)
}

// What a write is turned down with, the first of 1, 2, 3, 4 and 8 that fits.
// Not: 2 for a value above Largest; limits 5 apart pass; command 2 by Ready.
#[tactic(auto, unfolding(rules::specs::Refusals::write_refusal, rules::specs::Registers::read_only, rules::specs::Registers::largest, registers::specs::Bridge::row))]
pub fn check_write(regs: &Registers, a: u8, v: u8, ready: bool, held: bool) -> Result<(), Refusal>
    ensures { number result ≡ write_refusal (settings_from regs.now) ready held a v }
{
    if !in_map(a) {
        return Err(Refusal::OutsideTheMap);
    }
    let Some(register) = register_at(a) else {
        return Err(Refusal::ReadOnly);
    };
    if v > register.largest {
        return Err(Refusal::AboveLargest);
    }
    if limits_refused(regs, a, v) {
        return Err(Refusal::LimitsTooClose);
    }
    if command_refused(ready, held, a, v) {
        return Err(Refusal::CommandNotPossible);
    }
    Ok(())
}
