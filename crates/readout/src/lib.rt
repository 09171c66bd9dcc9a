// What a read of a register shows (document 01, "Registers"): hours, state and status, the value, masks and counts, and the settings.
// Each contract is an equation with a rule of crates/rules/specs/Reading.antt; the rule is named above the function.
// A mode is the stored number of crate pll, which C hands over.
// An address is a byte, which C hands over too, and a source its number. Where there is nothing to show, the rules have the byte 0.
#![tactic(auto)]

ghost use Rattle.std.specs.Prelude.{◌≡◌, ◌<◌, min};
ghost use Rattle.rules.specs.Reading as reading;
ghost use Rattle.pll.specs.Bridge.{mode_of};
ghost use Rattle.state.specs.Stored.{meaning};
ghost use Rattle.readout.specs.Shows.{shown_word, Shows};

use arith::either;
use refusals::Refusal;
use state::Unit;

// The lesser of a number and 255.
fn byte_of(n: u32) -> u8
    ensures { result ≡ min 255 n }
{
    n.min(255) as u8
}

// 0x27, the rule `hours`: whole hours in Holdover.
#[tactic(auto, unfolding(rules::specs::Reading::hours))]
fn hours(mode: u32, holding: u32) -> u8
    ensures { result ≡ reading.hours (mode_of mode) holding }
{
    if pll::is_holdover(mode) {
        byte_of(holding / 28_125)
    } else {
        0
    }
}

// 0x48, the rule `state_byte`: state and selected.
// Not: selected of 16 and more spills over; the state alone.
#[tactic(auto, using(pll::proofs::Modes::number_mode), unfolding(rules::specs::Reading::state_byte))]
pub fn state_byte(mode: u32, selected: u32) -> u8
    ensures { result ≡ reading.state_byte (mode_of mode) selected }
{
    16 * pll::mode_number(mode) + (selected % 16) as u8
}

// 0x49, the rule `status_byte`: alarm, not Locked, Ready, backup held.
// Not: Locked for not Locked; Ready in bit 3.
#[tactic(auto, unfolding(rules::specs::Reading::status_byte))]
pub fn status_byte(mode: u32, ready: bool, held: bool) -> u8
    ensures { result ≡ reading.status_byte (mode_of mode) ready held }
{
    // `either`, since an `if` that is added to another stands in brackets
    either(pll::is_holdover(mode) || pll::is_free_run(mode), 1u8, 0)
        + either(pll::is_locked(mode), 0u8, 2)
        + either(ready, 4u8, 0)
        + either(held, 8u8, 0)
}

// 0x4a to 0x4d, the rule `value_byte`: byte k of the value's 32 bits, low byte first; 0 unless Ready.
#[tactic(auto, unfolding(rules::specs::Reading::value_byte))]
fn value_byte(u: &Unit, k: usize) -> u8
    requires { k < 4 }
    ensures { result ≡ reading.value_byte (meaning u.now).history k }
{
    let t = u.core.tally;
    if history::is_ready(t) {
        value::twos(value::value(t, &u.history.sums)).to_le_bytes()[k]
    } else {
        0
    }
}

// A register that is read only: the rule `shown`.
#[tactic(auto, unfolding(rules::specs::Reading::shown, rules::specs::Reading::available_mask, rules::specs::Reading::available_count))]
fn shown(u: &Unit, a: u8) -> u8
    ensures { result ≡ reading.shown (meaning u.now) a }
{
    match a {
        0x27 => hours(u.core.pll.mode, u.core.holding),
        0x46 => u.monitors.qualified_mask(),
        0x47 => candidates::available_mask(&u.monitors, &u.regs),
        0x48 => state_byte(u.core.pll.mode, u.core.choice.selected),
        0x49 => status_byte(
            u.core.pll.mode,
            history::is_ready(u.core.tally),
            history::holds_backup(u.core.tally),
        ),
        0x4a..=0x4d => value_byte(u, usize::from(a - 0x4a)),
        _ => candidates::available_count(&u.monitors, &u.regs),
    }
}

// A register of the map: the rule `content`.
#[tactic(auto, unfolding(rules::specs::Reading::content, rules::specs::Registers::read_only, registers::specs::Bridge::row))]
fn content(u: &Unit, a: u8) -> u8
    ensures { result ≡ reading.content (meaning u.now) a }
{
    match (registers::register_at(a), a) {
        (None, _) => shown(u, a),
        (_, 0x26) => u.core.tally.command,
        _ => registers::setting(&u.regs, a),
    }
}

// The rule `read`, at every address: the byte, or the refusal of an address that is not in the map.
// Not: 0x26 shows the byte in its slot, not the last command; the value shown where it is not Ready.
#[tactic(auto, unfolding(rules::specs::Reading::read))]
pub fn read(u: &Unit, a: u8) -> Result<u8, Refusal>
    ensures { Shows u.now a (shown_word result) }
{
    if registers::in_map(a) {
        Ok(content(u, a))
    } else {
        Err(Refusal::OutsideTheMap)
    }
}

// What a read gives as one number, which C is given: 256 times the refusal, plus the byte.
// Not: 256 for every refusal; the refusal's number in the low byte.
pub fn word(shown: Result<u8, Refusal>) -> u16
    ensures { result ≡ shown_word shown }
{
    match shown {
        Ok(byte) => u16::from(byte),
        Err(r) => 256 * u16::from(u8::from(r)),
    }
}
