// The PLL (document 01, "PLL (step 3)" and the state of "Selection (step 4)"): its state, its lock and unlock runs, and the ticks in Holdover.
// A state goes by the number that is stored, Op_Mode and sources by those of registers (C interface): each number means something. `Mode` names the states.
// Each contract is an equation with a rule, through `mode_of` and `loop_of` of specs/Bridge.
#![tactic(auto)]

ghost use Rattle.std.specs.Prelude.{◌≡◌, ◌+◌, ◌<◌, min};
ghost use Rattle.rules.specs.Pll.{mode_number, free_run, holdover, locked, is, alarm_due};
ghost use Rattle.rules.specs.Pll as rules;
ghost use Rattle.rules.specs.Selection.{unselected_mode, unselected_loop, mode_after};
ghost use Rattle.rules.specs.Selection as selection;
ghost use Rattle.rules.specs.Tick.{holding_after};
ghost use Rattle.rules.specs.Registers as registers;
ghost use Rattle.pll.specs.Bridge.{named, mode_of, loop_of};

// The states, by the number that 0x48 shows.
#[derive(Clone, Copy, PartialEq, Eq)]
pub enum Mode {
    FreeRun = 0,
    Holdover = 1,
    PreLocked = 2,
    Locked = 3,
    LossOfLock = 4,
    PreLocked2 = 5,
}

// The state that a stored number stands for: each number past 5, which no event leaves, is Pre-locked 2.
// Not: 3 is Loss of lock; 0 is Holdover.
#[tactic(auto, unfolding(crate::specs::Bridge::mode_of))]
impl From<u32> for Mode {
    fn from(stored: u32) -> Mode
        ensures { named result ≡ mode_of stored }
    {
        match stored {
            0 => Mode::FreeRun,
            1 => Mode::Holdover,
            2 => Mode::PreLocked,
            3 => Mode::Locked,
            4 => Mode::LossOfLock,
            _ => Mode::PreLocked2,
        }
    }
}

// The number of a state.
// Not: 6 for Pre-locked 2; 0 for Holdover.
#[tactic(auto, unfolding(crate::specs::Bridge::mode_of, rules::specs::Pll::mode_number))]
impl From<Mode> for u32 {
    fn from(mode: Mode) -> u32
        ensures number { result ≡ mode_number (named mode) }
        ensures stored { mode_of result ≡ named mode }
    {
        mode as u32
    }
}

// The lock run of Locked.
const LOCK_TICKS: u32 = 16;
// The unlock run that sets a lock alarm: 100 s.
const UNLOCK_TICKS: u32 = 782;
// 255 hours of 28,125 ticks: the count of ticks in Holdover stops here.
const HOLDING_LIMIT: u32 = 7_171_875;

// The unlock run, the state's number and the lock run. Wider than they need be: three numbers of one width leave no padding, and a struct whose size is a power
// of two up to 8 bytes would be passed as one number, its fields cut out by shifts. The state stays a number here (C interface): each stored number is valid.
#[repr(C)]
#[derive(Clone, Copy)]
pub struct Loop {
    pub unlock: u32,
    pub mode: u32,
    pub lock: u32,
}

// One more, up to a limit. Tried `saturating_add(1).min(limit)`: two instructions more at each tick.
fn longer(run: u32, limit: u32) -> u32
    requires { 0 < limit }
    ensures { result ≡ min limit (run + 1) }
{
    run.min(limit - 1) + 1
}

// ---- the state
// A test for each of three states, and none that is given a `Mode`: a call says the state by its name, with no conversion beside it.

// The state is Free Run.
// Not: Holdover counts too; never Free Run.
#[tactic(auto, unfolding(rules::specs::Pll::mode_number))]
pub fn is_free_run(mode: u32) -> bool
    ensures { result ≡ is free_run (mode_of mode) }
{
    Mode::from(mode) == Mode::FreeRun
}

// The state is Holdover.
// Not: Free Run counts too; never Holdover.
#[tactic(auto, unfolding(rules::specs::Pll::mode_number))]
pub fn is_holdover(mode: u32) -> bool
    ensures { result ≡ is holdover (mode_of mode) }
{
    Mode::from(mode) == Mode::Holdover
}

// The state is Locked.
// Not: Loss of lock counts too; never Locked.
#[tactic(auto, unfolding(rules::specs::Pll::mode_number))]
pub fn is_locked(mode: u32) -> bool
    ensures { result ≡ is locked (mode_of mode) }
{
    Mode::from(mode) == Mode::Locked
}

// The state's number as 0x48 shows it. A stored number past 5, which no event leaves, reads as Pre-locked 2.
// Not: a stored 6 shown as 6; 0 for every number past 5.
#[tactic(auto, unfolding(rules::specs::Pll::mode_number))]
pub fn mode_number(mode: u32) -> u8
    ensures { result ≡ mode_number (mode_of mode) }
{
    Mode::from(mode) as u8
}

// A fresh unit: Free Run, both runs 0.
// Not: Holdover; a lock run of 1.
#[tactic(auto, unfolding(rules::specs::Registers::fresh, rules::specs::Registers::fresh_with))]
pub fn fresh_loop() -> Loop
    ensures { loop_of result ≡ (registers.fresh).loop }
{
    Loop {
        unlock: 0,
        mode: u32::from(Mode::FreeRun),
        lock: 0,
    }
}

// ---- step 3

// "Lock flag set: lock run +1 up to 16, unlock run 0. Clear: unlock run +1, lock run 0, and Locked becomes Loss of lock. Lock run 16 gives Locked."
// Not: Locked at a lock run of 15; Locked stays Locked without lock.
#[tactic(auto, unfolding(rules::specs::Pll::looped, rules::specs::Pll::unlocked))]
pub fn looped(lock: bool, p: Loop) -> Loop
    ensures { loop_of result ≡ rules.looped lock (loop_of p) }
{
    if lock {
        let lock = longer(p.lock, LOCK_TICKS);
        let mode = if lock == LOCK_TICKS {
            u32::from(Mode::Locked)
        } else {
            p.mode
        };
        Loop {
            unlock: 0,
            mode,
            lock,
        }
    } else {
        let mode = if is_locked(p.mode) {
            u32::from(Mode::LossOfLock)
        } else {
            p.mode
        };
        Loop {
            unlock: longer(p.unlock, UNLOCK_TICKS),
            mode,
            lock: 0,
        }
    }
}

// "Unlock run 782 (100 s) sets that input's lock alarm".
// Not: due a tick early, at 781; always due.
#[tactic(auto, unfolding(rules::specs::Pll::alarm_due))]
pub fn alarm_due(p: Loop) -> bool
    ensures { result ≡ alarm_due (loop_of p) }
{
    p.unlock == UNLOCK_TICKS
}

// ---- step 4
// What step 4 tells goes as five parameters: a struct of them would be made at one place, in `tick`, and taken apart at one.

// With nothing selected: "Holdover if Ready, otherwise Free Run".
#[tactic(auto, unfolding(rules::specs::Selection::unselected_mode))]
fn unselected_mode(ready: bool) -> Mode
    ensures { named result ≡ unselected_mode ready }
{
    if ready { Mode::Holdover } else { Mode::FreeRun }
}

// The state where `before` was selected and `next` now is. "Op_Mode 0 in manual, or selected 9, is Free Run. Else selected 0 is Holdover if Ready, otherwise
// Free Run. A newly selected reference starts Pre-locked if the state was Free Run, else Pre-locked 2." Tried with a `Mode` in and out: slower at each tick.
#[tactic(auto, unfolding(rules::specs::Selection::mode_after))]
fn mode_after(automatic: bool, opmode: u8, ready: bool, before: u32, next: u32, mode: u32) -> u32
    ensures { mode_of result ≡ mode_after automatic opmode ready before next (mode_of mode) }
{
    match (automatic, opmode, next) {
        (false, 0, _) | (_, _, 9) => u32::from(Mode::FreeRun),
        (_, _, 0) => u32::from(unselected_mode(ready)),
        _ if next == before => mode,
        _ if is_free_run(mode) => u32::from(Mode::PreLocked),
        _ => u32::from(Mode::PreLocked2),
    }
}

// "Both runs restart at 0 when the selection changes."
// Not: the unlock run restarts with no change; the runs go on over a change.
#[tactic(auto, unfolding(rules::specs::Selection::steered))]
pub fn steered(automatic: bool, opmode: u8, ready: bool, before: u32, next: u32, p: Loop) -> Loop
    ensures { loop_of result ≡ selection.steered automatic opmode ready before next (loop_of p) }
{
    let mode = mode_after(automatic, opmode, ready, before, next, p.mode);
    if next == before {
        Loop { mode, ..p }
    } else {
        Loop {
            unlock: 0,
            mode,
            lock: 0,
        }
    }
}

// A Hit: "wait and runs 0, .. state Holdover or Free Run by Ready".
// Not: a lock run of 1; Holdover unless Ready.
#[tactic(auto, unfolding(rules::specs::Selection::unselected_loop))]
pub fn loop_after_hit(ready: bool) -> Loop
    ensures { loop_of result ≡ unselected_loop ready }
{
    Loop {
        unlock: 0,
        mode: u32::from(unselected_mode(ready)),
        lock: 0,
    }
}

// ---- the ticks in Holdover

// The ticks in Holdover "after the entering event": the tick that enters does not count. The count stops at 255 hours.
// Not: each tick counted as the first; a count that stops at 254 hours; the entering tick counts.
#[tactic(auto, unfolding(rules::specs::Tick::holding_after))]
pub fn holding_after(before: u32, after: u32, holding: u32) -> u32
    ensures { result ≡ holding_after (mode_of before) (mode_of after) holding }
{
    if is_holdover(before) && is_holdover(after) {
        longer(holding, HOLDING_LIMIT)
    } else {
        0
    }
}
