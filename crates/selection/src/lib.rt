// Selection (document 01, step 4, and the busy hours of document 02, #107): the wait, and the choice of a tick. The registers, the inputs' rows and the windows
// are lent for reading, and so is what follows from the registers and is made after a write. The settings are `settings_from` of the registers.
// Each contract is an equation with a rule, through `choice_of`, `inputs_of`, `windows_of` and `settings_from`.
#![tactic(auto)]

ghost use Rattle.std.specs.Prelude.{◌≡◌, ◌≤◌, eqb, if◌then◌else◌};
ghost use Rattle.rules.specs.Settings.{delay_ticks, reversion};
ghost use Rattle.rules.specs.Week.{busy};
ghost use Rattle.rules.specs.Selection as selection;
ghost use Rattle.rules.specs.Selection.{wait_after};
ghost use Rattle.rules.specs.Registers.{settings_from};
ghost use Rattle.inputs.specs.Bridge.{inputs_of};
ghost use Rattle.week.specs.Bridge.{windows_of};
ghost use Rattle.selection.specs.Bridge.{choice_of, Follows};

use candidates::{Keys, best_of, is_candidate, keys_of};
use inputs::Monitors;
use registers::{Registers, is_automatic, is_revertive, setting};
use waits::{delay_floor, delay_ticks};
use week::{Windows, is_busy};

// Two ticks more than the longest delay: the wait stops here.
const WAIT_LIMIT: u32 = 119_534;

// What is selected, and the ticks waited for `awaited`, the best that they count for. Three numbers of one width: see `Loop` of crates/pll.
// A source is its number, 0 for none and 9 for Free Run: the host lends these (C interface), and each number that lies there is valid.
#[repr(C)]
#[derive(Clone, Copy)]
pub struct Choice {
    pub wait: u32,
    pub selected: u32,
    pub awaited: u32,
}

// What follows from the registers alone: the candidates' keys, and a floor of the delay. It is made after a write and handed to the ticks.
// That it follows is said by each clause that needs it (`Follows`), and by no type: the registers lie elsewhere, and change.
#[derive(Clone, Copy)]
pub struct Handed {
    pub keys: Keys,
    pub floor: u32,
}

// What a tick is handed where these are the registers.
// Not: keys of 0; the delay of a minute more.
pub fn handed_by(regs: &Registers) -> Handed
    ensures { Follows (settings_from regs.now) result.keys result.floor }
{
    Handed {
        keys: keys_of(regs),
        floor: delay_floor(setting(regs, 0x43)),
    }
}

// ---- the wait
// `c` is the choice as stored and `b` the best of this tick, made anew: no struct has both. So it is with the place, of the core, and the windows, of a unit.

// The rule `settled`: selected, with the wait at 0.
// Not: none selected; a wait of 1.
#[tactic(auto, unfolding(rules::specs::Selection::settled))]
pub fn settled(c: u32) -> Choice
    ensures { choice_of result ≡ selection.settled c }
{
    Choice {
        wait: 0,
        selected: c,
        awaited: 0,
    }
}

// The ticks waited for `b` so far: none where the wait counts for another.
fn waited(b: u32, c: Choice) -> u32
    ensures { result ≡ (if eqb c.awaited b then c.wait else 0) }
{
    if c.awaited == b { c.wait } else { 0 }
}

// The rule `wait_after`: the wait for `b` with this tick, in a window or not. In one a wait over n for the same best stays.
// By tests and no `min`: a stay lies between the limit and one more.
fn wait_after(blocked: bool, n: u32, b: u32, c: Choice) -> u32
    ensures { result ≡ wait_after blocked n b (choice_of c) }
{
    let so_far = waited(b, c);
    if so_far < WAIT_LIMIT {
        // `&` and no `&&`: one test
        if blocked & (n < so_far) {
            return so_far;
        }
        return so_far + 1;
    }
    WAIT_LIMIT
}

// The rule `switches`: the wait is over.
#[tactic(auto, unfolding(rules::specs::Selection::switches))]
fn switches(n: u32, wait: u32) -> bool
    ensures { result ≡ selection.switches n wait }
{
    n <= wait.saturating_sub(1)
}

// The selected one stays, with this wait for `b`.
fn waiting(wait: u32, b: u32, c: Choice) -> Choice
    ensures { choice_of result ≡ record { selected = c.selected; wait = wait; awaited = b } }
{
    Choice {
        wait,
        awaited: b,
        ..c
    }
}

// The rule `reverted`: the reversion to `b`, with a delay of so many minutes, of which a floor was handed on. A wait that is not over by the floor is not over,
// and rises in a window as outside: table and windows are looked at only where it is.
fn reverted(windows: &Windows, place: u32, floor: u32, minutes: u8, b: u32, c: Choice) -> Choice
    ensures { floor ≤ delay_ticks minutes → choice_of result ≡ selection.reverted (busy (windows_of windows.now) place) (delay_ticks minutes) b (choice_of c) }
{
    let risen = wait_after(false, floor, b, c);
    if !switches(floor, risen) {
        return waiting(risen, b, c);
    }
    let n = delay_ticks(minutes);
    let blocked = is_busy(windows, place);
    let wait = wait_after(blocked, n, b, c);
    // `&` and no `&&`: one test
    if !blocked & switches(n, wait) {
        return settled(b);
    }
    waiting(wait, b, c)
}

// ---- the choice

// The rule `reselected`: automatic control, `b` being the best candidate. Where that is selected, it stays or is chosen, which is the same; the test comes
// first, where the best is made, so that the compiler can make it of eight lanes side by side.
fn reselected(
    m: &Monitors,
    regs: &Registers,
    floor: u32,
    windows: &Windows,
    place: u32,
    b: u32,
    c: Choice,
) -> Choice
    ensures { floor ≤ reversion (settings_from regs.now) → choice_of result ≡ selection.reselected (busy (windows_of windows.now) place) (settings_from regs.now) (inputs_of m.now) b (choice_of c) }
{
    if c.selected == b {
        return settled(b);
    }
    if is_candidate(m, regs, c.selected) {
        if is_revertive(regs, c.selected) {
            return reverted(windows, place, floor, setting(regs, 0x43), b, c);
        }
        return settled(c.selected);
    }
    settled(b)
}

// The rule `manual`.
#[tactic(auto, unfolding(rules::specs::Selection::manual))]
fn manual(m: &Monitors, regs: &Registers) -> Choice
    ensures { choice_of result ≡ selection.manual (settings_from regs.now) (inputs_of m.now) }
{
    let s = u32::from(setting(regs, 0x41));
    if m.qualified_at(s) {
        return settled(s);
    }
    settled(0)
}

// The rule `chosen`: the choice of a tick at a place, where what is handed follows from the registers.
// Not: manual control heeds the mask; a window blocks the switch off a lost reference; the wait stands still in a window.
#[tactic(auto, unfolding(rules::specs::Selection::chosen))]
pub fn chosen(
    m: &Monitors,
    regs: &Registers,
    h: &Handed,
    windows: &Windows,
    place: u32,
    c: Choice,
) -> Choice
    ensures { Follows (settings_from regs.now) h.now.keys h.now.floor → choice_of result ≡ selection.chosen (busy (windows_of windows.now) place) (settings_from regs.now) (inputs_of m.now) (choice_of c) }
{
    if is_automatic(regs) {
        return reselected(m, regs, h.floor, windows, place, best_of(m, &h.keys), c);
    }
    manual(m, regs)
}
