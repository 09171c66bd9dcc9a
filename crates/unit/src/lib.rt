// The four events of a run sheet (document 01): what each gives, a refusal or the state after it.
// What an event changes of a unit is lent to it and changed where it lies; the core goes by value. A refusal leaves every stored number as it was.
// A tick and a write are lent the parts of a unit apart, and no `Unit`: so a run keeps the core out of memory, and the compiler sees a fresh unit's sets.
// Each contract is an equation with a rule of crates/rules/specs through crates/state/specs/Stored.antt; the rule is named above the function.
#![tactic(auto)]

ghost use Rattle.std.specs.Prelude.{◌≡◌, true, ◌*◌, List, ℕ, leb, eqb, nat_abs, if◌then◌else◌};
ghost use Rattle.rules.specs.Registers.{in_map, written, settings_from};
ghost use Rattle.rules.specs.Settings.{delay, delay_ticks};
ghost use Rattle.rules.specs.Events as events;
ghost use Rattle.rules.specs.Events.{half_ppm, sample_limit};
ghost use Rattle.rules.specs.Run.{after_write};
ghost use Rattle.refusals.specs.Number.{number};
ghost use Rattle.buckets.specs.declared.Buckets.{Buckets};
ghost use Rattle.history.specs.declared.History as sums;
ghost use Rattle.inputs.specs.declared.Monitors as rows;
ghost use Rattle.selection.specs.Bridge.{Follows};
ghost use Rattle.state.specs.Stored.{meaning, unit_of, with_tally};
ghost use Rattle.state.specs.declared.Core as core;
ghost use Rattle.tick.specs.Handed.{Suits};
ghost use Rattle.unit.specs.Events.{event_of};
ghost use Rattle.unit.specs.Given.{Gives, core_after};

use arith::is_input;
use buckets::Numbers;
use history::{History, Tally};
use inputs::Monitors;
use refusals::Refusal;
use registers::Registers;
use selection::Handed;
use state::{Core, Unit};
use week::Windows;

// The four events.
// Their fields are numbers, as a sheet and C have them (C interface): an input, an address or a sample that may not be is turned down where it is handled.
#[derive(Clone, Copy)]
pub enum Event {
    // irregular mask, lock flag, sample
    Tick(u8, bool, i32),
    // input, offset in 1/64 ppm
    Measurement(u8, i16),
    Hit,
    // address, value
    Write(u8, u8),
}

// ---- the four events, with what each changes lent

// Refusal 7: "sample out of range".
fn in_range(x: i32) -> bool
    ensures { result ≡ leb (nat_abs x) sample_limit }
{
    x.unsigned_abs() <= 125_000_000
}

// A tick, or refusal 7.
fn on_tick(
    mask: u8,
    lock: bool,
    x: i32,
    k: Core,
    m: &mut Monitors,
    n: &Numbers,
    regs: &Registers,
    handed: &Handed,
    windows: &Windows,
    h: &mut History,
) -> Result<Core, Refusal>
    ensures { (b : Buckets) → Suits n.now handed.now b regs.now → Gives (unit_of k m.old b h.old windows.now regs.now) (events.tick_with mask lock x) (number result) (unit_of (core_after k result) m.new b h.new windows.now regs.now) }
{
    if in_range(x) {
        return Ok(tick::tick(mask, lock, x, k, m, n, regs, handed, windows, h));
    }
    Err(Refusal::SampleOutOfRange)
}

// A limit in steps of 1/64 ppm: "the limits are compared as 32 times theirs".
fn in_steps(limit: u8) -> u16
    ensures { result ≡ half_ppm * limit }
{
    32 * u16::from(limit)
}

// A measurement, or refusal 6: "input not 1 to 8".
fn on_measurement(i: u8, offset: i16, m: &mut Monitors, regs: &Registers) -> Result<(), Refusal>
    ensures { (k : core.Core) (b : Buckets) (h : sums.History) (w : List ℕ) → Gives (unit_of k m.old b h w regs.now) (events.measurement i offset) (number result) (unit_of k m.new b h w regs.now) }
{
    if is_input(u32::from(i)) {
        let reject = in_steps(registers::setting(regs, 0x44));
        let qualification = in_steps(registers::setting(regs, 0x45));
        m.measure(i, offset, reject, qualification);
        return Ok(());
    }
    Err(Refusal::NoInput)
}

// A Hit, or refusal 5: "Hit with no reference 1 to 8 selected".
fn on_hit(k: Core, m: &mut Monitors) -> Result<Core, Refusal>
    ensures { (b : Buckets) (h : sums.History) (w regs : List ℕ) → Gives (unit_of k m.old b h w regs) events.hit (number result) (unit_of (core_after k result) m.new b h w regs) }
{
    if is_input(k.choice.selected) {
        m.unsoak(k.choice.selected);
        return Ok(Core {
            tally: history::open_emptied(k.tally),
            choice: selection::settled(0),
            holding: 0,
            pll: pll::loop_after_hit(history::is_ready(k.tally)),
            ..k
        });
    }
    Err(Refusal::NothingToHit)
}

// The rule `after_write`: 0x26 is a command to the history, any other register of the map a setting.
fn write_accepted(a: u8, v: u8, t: Tally, regs: &mut Registers, h: &mut History) -> Tally
    ensures rule { (k : core.Core) (m : rows.Monitors) (b : Buckets) (w : List ℕ) → in_map a ≡ true → meaning (unit_of (with_tally result k) m b h.new w regs.new) ≡ after_write a v (meaning (unit_of (with_tally t k) m b h.old w regs.old)) }
    ensures regs_after { in_map a ≡ true → settings_from regs.new ≡ (if eqb a 0x26 then settings_from regs.old else written a v (settings_from regs.old)) }
{
    if a == 0x26 {
        return history::commanded(v, t, h);
    }
    writes::written(regs, a, v);
    t
}

// The floor of the delay that is handed on after a write at a: the delay itself, looked up, if that is 0x43.
fn delay_after(a: u8, regs: &Registers, handed: u32) -> u32
    ensures { result ≡ (if eqb a 0x43 then delay_ticks (delay (settings_from regs.now)) else handed) }
{
    if a == 0x43 {
        return waits::delay_ticks(registers::setting(regs, 0x43));
    }
    handed
}

// The rule `outcome` of a write: accepted, or the first of refusals 1, 2, 3, 4 and 8 that fits.
fn on_write(a: u8, v: u8, k: Core, regs: &mut Registers, h: &mut History) -> Result<Core, Refusal>
    ensures gives { (m : rows.Monitors) (b : Buckets) (w : List ℕ) → Gives (unit_of k m b h.old w regs.old) (events.write a v) (number result) (unit_of (core_after k result) m b h.new w regs.new) }
    ensures regs_left { (number result ≡ 0 → ⊥) → regs.new ≡ regs.old }
    ensures regs_after { number result ≡ 0 → settings_from regs.new ≡ (if eqb a 0x26 then settings_from regs.old else written a v (settings_from regs.old)) }
{
    let checked = writes::check_write(
        regs,
        a,
        v,
        history::is_ready(k.tally),
        history::holds_backup(k.tally),
    );
    // By hand and no `?`, so that a wrong number can be written in its place.
    if let Err(r) = checked {
        return Err(r);
    }
    Ok(Core {
        tally: write_accepted(a, v, k.tally, regs, h),
        ..k
    })
}

// The same, and what is handed to the ticks after it: the keys are made anew, and by a write of 0x43 the floor.
// Not: the keys left as they were; a command's tally dropped.
pub fn write(
    a: u8,
    v: u8,
    k: Core,
    regs: &mut Registers,
    handed: &mut Handed,
    h: &mut History,
) -> Result<Core, Refusal>
    ensures gives { (m : rows.Monitors) (b : Buckets) (w : List ℕ) → Gives (unit_of k m b h.old w regs.old) (events.write a v) (number result) (unit_of (core_after k result) m b h.new w regs.new) }
    ensures follows { Follows (settings_from regs.old) handed.old.keys handed.old.floor → Follows (settings_from regs.new) handed.new.keys handed.new.floor }
{
    let next = on_write(a, v, k, regs, h)?;
    handed.keys = candidates::keys_of(regs);
    handed.floor = delay_after(a, regs, handed.floor);
    Ok(next)
}

// ---- an event

// The rule `outcome`, of a unit whose parts are lent, with the numbers of each input's set and what follows from the registers beside them. A write takes the
// core by value and gives it back: lent to that call, the core would lie in memory at each tick.
// Not: the number of a measurement given as 0; the core of a write dropped.
pub fn step(
    e: Event,
    k: Core,
    m: &mut Monitors,
    n: &Numbers,
    regs: &mut Registers,
    handed: &mut Handed,
    windows: &Windows,
    h: &mut History,
) -> Result<Core, Refusal>
    ensures gives { (b : Buckets) → Suits n.now handed.old b regs.old → Gives (unit_of k m.old b h.old windows.now regs.old) (event_of e) (number result) (unit_of (core_after k result) m.new b h.new windows.now regs.new) }
    ensures follows { Follows (settings_from regs.old) handed.old.keys handed.old.floor → Follows (settings_from regs.new) handed.new.keys handed.new.floor }
{
    match e {
        Event::Tick(mask, lock, x) => on_tick(mask, lock, x, k, m, n, regs, handed, windows, h),
        Event::Measurement(i, offset) => {
            on_measurement(i, offset, m, regs)?;
            Ok(k)
        }
        Event::Hit => on_hit(k, m),
        Event::Write(a, v) => {
            let copy = k;
            let next = write(a, v, copy, regs, handed, h)?;
            Ok(next)
        }
    }
}

// The rule `outcome`, of a unit where it lies. What a tick is handed is made here: no other event needs it.
// Not: the core before the event comes back; a tick handed keys of 0; the sums and the backup lent in each other's place.
pub fn handle(e: Event, u: &mut Unit) -> Result<(), Refusal>
    ensures gives { Gives u.old (event_of e) (number result) u.new }
    ensures buckets { u.new.buckets ≡ u.old.buckets }
    ensures windows { u.new.windows ≡ u.old.windows }
{
    match e {
        Event::Tick(mask, lock, x) => {
            let n = buckets::numbers_of(u.buckets);
            let handed = selection::handed_by(&u.regs);
            u.core = on_tick(
                mask,
                lock,
                x,
                u.core,
                &mut u.monitors,
                &n,
                &u.regs,
                &handed,
                &u.windows,
                &mut u.history,
            )?;
        }
        Event::Measurement(i, offset) => on_measurement(i, offset, &mut u.monitors, &u.regs)?,
        Event::Hit => u.core = on_hit(u.core, &mut u.monitors)?,
        Event::Write(a, v) => u.core = on_write(a, v, u.core, &mut u.regs, &mut u.history)?,
    }
    Ok(())
}
