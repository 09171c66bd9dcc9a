// A tick (document 01): its five steps in order, each by the function of its rule. What a tick changes in arrays lies with the caller and is changed there; the
// numbers go by value.
// A selected source is its number (crates/arith). Mask, lock flag and sample go apart, since no step takes two of them; and so do the parts of a unit: see
// crates/unit.
#![tactic(auto)]

ghost use Rattle.std.specs.Prelude.{◌≡◌, ◌&&◌, if◌then◌else◌};
ghost use Rattle.rules.specs.Words.{is_tracked};
ghost use Rattle.rules.specs.Monitors.{lock_alarmed};
ghost use Rattle.rules.specs.Pll.{alarm_due};
ghost use Rattle.rules.specs.Pll as pll;
ghost use Rattle.rules.specs.Inputs.{altered};
ghost use Rattle.rules.specs.Tick as rules;
ghost use Rattle.buckets.specs.declared.Buckets.{Buckets};
ghost use Rattle.inputs.specs.Bridge.{inputs_of, with_lock_alarms};
ghost use Rattle.pll.specs.Bridge.{loop_of};
ghost use Rattle.state.specs.Stored.{meaning, unit_of};
ghost use Rattle.tick.specs.Handed.{Suits};

use arith::is_input;
use buckets::Numbers;
use history::History;
use inputs::Monitors;
use pll::Loop;
use registers::Registers;
use selection::Handed;
use state::Core;
use week::Windows;

// Step 3: "Only if a reference 1 to 8 is selected when the tick begins."
fn looped(lock: bool, selected: u32, p: Loop) -> Loop
    ensures { loop_of result ≡ (if is_tracked selected then pll.looped lock (loop_of p) else loop_of p) }
{
    if is_input(selected) {
        return pll::looped(lock, p);
    }
    p
}

// Step 3: "Unlock run 782 (100 s) sets that input's lock alarm".
fn alarmed(selected: u32, p: Loop, m: &mut Monitors)
    ensures inputs { inputs_of m.new ≡ (if is_tracked selected && alarm_due (loop_of p) then altered lock_alarmed selected (inputs_of m.old) else inputs_of m.old) }
    ensures rows { m.new ≡ with_lock_alarms m.old m.new.remainder m.new.soak }
{
    if is_input(selected) && pll::alarm_due(p) {
        m.alarm(selected);
    }
}

// The rule `ticked`, where the numbers are those of each input's set, and what is handed follows from the registers. Frequency alarms and backup stay.
// Not: the place advances before the selection; the selection stays as it was; step 4 on the loop before step 3.
pub fn tick(
    mask: u8,
    lock: bool,
    x: i32,
    k: Core,
    m: &mut Monitors,
    n: &Numbers,
    regs: &Registers,
    handed: &Handed,
    windows: &Windows,
    h: &mut History,
) -> Core
    ensures rule { (b : Buckets) → Suits n.now handed.now b regs.now → meaning (unit_of result m.new b h.new windows.now regs.now) ≡ rules.ticked (record { mask = mask; lock = lock; sample = x }) (meaning (unit_of k m.old b h.old windows.now regs.now)) }
    ensures frequency { m.new.frequency ≡ m.old.frequency }
    ensures backup { h.new.backup ≡ h.old.backup }
{
    // steps 1 and 2
    monitor::watched(mask, m, n);
    // step 3
    let driven = looped(lock, k.choice.selected, k.pll);
    alarmed(k.choice.selected, driven, m);
    // step 4, at the place that stands, and the place after it
    let place = week::advanced(k.place);
    let choice = selection::chosen(m, regs, handed, windows, k.place, k.choice);
    let pll = pll::steered(
        registers::is_automatic(regs),
        registers::setting(regs, 0x41),
        history::is_ready(k.tally),
        k.choice.selected,
        choice.selected,
        driven,
    );
    let holding = pll::holding_after(k.pll.mode, pll.mode, k.holding);
    // step 5
    let tally = history::recorded(
        registers::setting(regs, 0x25),
        choice.selected,
        pll::is_locked(pll.mode),
        x,
        k.tally,
        h,
    );
    Core {
        tally,
        choice,
        holding,
        place,
        pll,
    }
}
