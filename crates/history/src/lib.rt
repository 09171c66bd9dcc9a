// The holdover history: document 01, "History (step 5)", with the building history of request #102. A tick changes the small tally, and the sums in use and
// those that build only when a block completes.
// Each contract is an equation with a rule of crates/rules/specs/History.antt through specs/Bridge.antt; the rule is named above the function.
// Policy and command are the bytes of their registers, a reference is its number (crates/arith). What step 5 is told goes apart: functions take parts of it.
#![tactic(auto)]

ghost use Rattle.std.specs.Prelude.{◌≡◌, List, ℤ, ◌+ℤ◌};
ghost use Rattle.rules.specs.History as rules;
ghost use Rattle.rules.specs.History.{ready, held, saturated, open_emptied, sampled, starts_building, noted, recorded, replaced, fresh_history};
ghost use Rattle.history.specs.Bridge.{kept_of, history_of, kept_in, pushed, Steps};

use arith::is_input;

// What a tick changes of the history.
// The host lends it (C interface): every number that lies there means something, so counts, flag, reference and command are numbers, and 0 says none.
#[repr(C)]
#[derive(Clone, Copy, Default)]
pub struct Tally {
    // The open block: its sum, and how many samples it has.
    pub open: i64,
    pub filled: u16,
    // How many blocks are in use, how many the building history has, and how many the backup.
    pub count: u8,
    pub built: u8,
    pub backed: u8,
    // Not 0 while a history builds.
    pub builds: u8,
    // The reference selected last, 0 for none; the last accepted command.
    pub last: u8,
    pub command: u8,
}

// Block sums, newest first: those in use, those of the building history, or the backup's.
// Always 64, and their counts in the tally: no heap, memory that the host lends (C interface), and a tally by value while the sums stay where they lie.
pub type Sums = [i64; 64];

// The block sums of a unit: those in use, those of the building history, and the backup's. What lies after the sums that the tally counts means nothing.
#[repr(C)]
#[derive(Drop)]
pub struct History {
    pub sums: Sums,
    pub building: Sums,
    pub backup: Sums,
}

// ---- step 5

// `saturated`: a sum past ±16,000,000,000 counts as that bound.
// Not: a bound one short; no bound.
#[tactic(auto, unfolding(rules::specs::History::saturated))]
pub fn within(z: i64) -> i64
    ensures { result ≡ saturated z }
{
    z.clamp(-16_000_000_000, 16_000_000_000)
}

// `ready`: 43 blocks or more are in use.
// Not: Ready at 42 blocks.
#[tactic(auto, using(crate::proofs::Kept::ready_kept), unfolding(rules::specs::History::ready))]
pub fn is_ready(t: Tally) -> bool
    ensures { (sums building backup : List ℤ) → result ≡ ready (history_of t sums building backup) }
{
    43 <= t.count
}

// `held`: the backup is not empty.
// Not: held with no block; never held.
#[tactic(auto, unfolding(rules::specs::History::held, crate::specs::Bridge::first_sums))]
pub fn holds_backup(t: Tally) -> bool
    ensures { (sums building backup : List ℤ) → result ≡ held (history_of t sums building backup).backup }
{
    t.backed != 0
}

// The open block's sum with one sample more: clamped, added and clamped again, so that nothing overflows. A sum so far from its bounds that no sample leads
// over them is added to at once.
#[tactic(auto, unfolding(rules::specs::History::saturated))]
fn summed(sum: i64, x: i32) -> i64
    ensures { result ≡ saturated (saturated sum +ℤ x) }
{
    if -13_000_000_000 < sum && sum < 13_000_000_000 {
        return sum + i64::from(x);
    }
    within(within(sum) + i64::from(x))
}

// `open_emptied`: the open block empties.
// Not: a sample stays; the sum stays.
#[tactic(auto, unfolding(rules::specs::History::open_emptied, rules::specs::History::with_blocks, rules::specs::History::saturated))]
pub fn open_emptied(mut t: Tally) -> Tally
    ensures { Steps t result open_emptied }
{
    // Set in place, as in `replaced` and `noted`: a struct update copies each field alone, which took 8 instructions more a tick.
    t.open = 0;
    t.filled = 0;
    t
}

// `replaced`: `count` blocks are in use, and the building history and the open block empty.
#[tactic(auto, unfolding(rules::specs::History::replaced, rules::specs::History::with_blocks, rules::specs::History::open_emptied, crate::specs::Bridge::first_sums))]
fn replaced(count: u8, mut t: Tally) -> Tally
    ensures { (old was sums building backup : List ℤ) → history_of result sums building backup ≡ replaced (kept_of sums count) (history_of t old was backup) }
{
    t.count = count;
    t.built = 0;
    open_emptied(t)
}

// `starts_building`: a building history with no block yet, and an empty open block.
#[tactic(auto, unfolding(rules::specs::History::starts_building, rules::specs::History::replaced, rules::specs::History::with_blocks))]
fn starts_building(t: Tally) -> Tally
    ensures { Steps t result starts_building }
{
    Tally {
        builds: 1,
        ..replaced(t.count, t)
    }
}

// `noted`: a reference is noted as the one selected last; with policy 0, another than the last one starts a building history.
#[tactic(auto, unfolding(rules::specs::History::noted, rules::specs::History::with_last, rules::specs::History::starts_building, rules::specs::History::with_blocks))]
fn noted(policy: u8, selected: u32, mut t: Tally) -> Tally
    ensures { Steps t result (noted policy selected) }
{
    if is_input(selected) && selected != u32::from(t.last) {
        t.last = selected as u8;
        if policy == 0 {
            return starts_building(t);
        }
    }
    t
}

// `pushed`: the new sum first, each other a place on, and the oldest dropped. Place by place: `copy_within` calls memmove, which libhost.a does without. Out of
// line, since it is wanted once in 128 ticks: unrolled into a run it costs each event.
#[inline(never)]
fn push(sums: &mut Sums, x: i64)
    ensures { sums.new ≡ pushed x sums.old }
{
    let mut next = x;
    for k in 0..64 {
        let old = sums[k];
        sums[k] = next;
        next = old;
    }
}

// `completed`: the block joins the history that fills; a building history that then has 43 replaces the blocks in use.
fn completed(sum: i64, t: Tally, h: &mut History) -> Tally
    ensures rule { kept_in result h.new ≡ rules.completed (saturated sum) (kept_in t h.old) }
    ensures backup { h.new.backup ≡ h.old.backup }
{
    if t.builds == 0 {
        push(&mut h.sums, sum);
        return replaced(t.count.min(63) + 1, t);
    }
    push(&mut h.building, sum);
    if t.built < 42 {
        return Tally {
            built: t.built + 1,
            ..open_emptied(t)
        };
    }
    h.sums = h.building;
    Tally {
        builds: 0,
        ..replaced(t.built.min(63) + 1, t)
    }
}

// `sampled`: the sample joins the open block, and completes it as its 128th.
#[tactic(auto, unfolding(rules::specs::History::sampled, rules::specs::History::saturated))]
fn sampled(x: i32, t: Tally, h: &mut History) -> Tally
    ensures rule { kept_in result h.new ≡ rules.sampled x (kept_in t h.old) }
    ensures backup { h.new.backup ≡ h.old.backup }
{
    let open = summed(t.open, x);
    if t.filled < 127 {
        return Tally {
            open,
            filled: t.filled + 1,
            ..t
        };
    }
    completed(open, t, h)
}

// `recorded`, step 5: the sums are touched only when a block completes, and those of the backup never.
// Not: 44 blocks built before they replace those in use; 129 samples a block; 63 blocks kept.
#[tactic(auto, unfolding(rules::specs::History::recorded))]
pub fn recorded(policy: u8, selected: u32, locked: bool, x: i32, t: Tally, h: &mut History) -> Tally
    ensures rule { kept_in result h.new ≡ rules.recorded policy selected locked x (kept_in t h.old) }
    ensures backup { h.new.backup ≡ h.old.backup }
{
    let next = noted(policy, selected, t);
    if locked {
        sampled(x, next, h)
    } else {
        open_emptied(next)
    }
}

// ---- the commands

// `commanded`: 1 copies the blocks in use to backup, 2 replaces them by the backup, 3 empties them; 2 and 3 empty the building history and the open block too;
// any other is only noted. The count empties the building history; zeros are written over its sums so that they lie in memory at each tick.
// Not: 1 copies the sums and not their count; 2 leaves the open block.
#[tactic(auto, unfolding(rules::specs::History::commanded, rules::specs::History::with_command, rules::specs::History::backed_up, rules::specs::History::replaced, rules::specs::History::with_blocks, crate::specs::Bridge::first_sums))]
pub fn commanded(c: u8, t: Tally, h: &mut History) -> Tally
    ensures { kept_in result h.new ≡ rules.commanded c (kept_in t h.old) }
{
    let next = Tally { command: c, ..t };
    match c {
        1 => {
            h.backup = h.sums;
            Tally {
                backed: t.count,
                ..next
            }
        }
        2 => {
            h.sums = h.backup;
            h.building = [0; 64];
            replaced(t.backed, next)
        }
        3 => {
            h.building = [0; 64];
            replaced(0, next)
        }
        _ => next,
    }
}

// `fresh_history`: no block, no sample, no backup, and nothing builds, whatever the sums are; the last reference and the last command are 0.
// Not: a backup; a last command of 1.
#[tactic(auto, unfolding(rules::specs::History::fresh_history, rules::specs::History::saturated, crate::specs::Bridge::first_sums))]
pub fn fresh_tally() -> Tally
    ensures { (sums building backup : List ℤ) → history_of result sums building backup ≡ fresh_history }
{
    Tally::default()
}
