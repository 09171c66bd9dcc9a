// The calls of a host that change a unit: an event by its fields (document 01), and those that are no events of a run sheet (document 02, #104: setting and
// assigning a set of bucket numbers; #107: setting the place in the week, and the windows). Each is lent the unit or the parts of it that it may change. A
// refusal leaves every stored number as it was.
// Each contract is an equation with the rule `outcome` through crates/state/specs/Stored.antt.
// Fields, inputs, sets and windows are numbers, as C hands them over (C interface): what is none is turned down here, by the name of its refusal.
#![tactic(auto)]

ghost use Rattle.std.specs.Prelude.{◌≡◌, List, ℕ};
ghost use Rattle.rules.specs.Events.{set_bucket, assign_bucket, set_week, set_windows};
ghost use Rattle.rules.specs.Sheet.{fields};
ghost use Rattle.rules.specs.Week.{first_windows};
ghost use Rattle.refusals.specs.Number.{number};
ghost use Rattle.buckets.specs.declared.Buckets as sets;
ghost use Rattle.history.specs.declared.History.{History};
ghost use Rattle.inputs.specs.Bridge.{with_activity};
ghost use Rattle.inputs.specs.declared.Monitors as rows;
ghost use Rattle.state.specs.Stored.{unit_of};
ghost use Rattle.state.specs.declared.Core as core;
ghost use Rattle.unit.specs.Given.{Leads, Gives, given};

use buckets::{Buckets, at_input};
use inputs::Monitors;
use refusals::Refusal;
use state::{Core, Unit};
use week::Windows;

// One event, given by its fields: refused with their number if they are no event. Sets, assignments and windows stay.
// Not: the sums and the backup lent in each other's place.
pub fn event(u: &mut Unit, kind: u8, a: u8, b: u8, word: i32) -> Result<(), Refusal>
    ensures leads { Leads u.old (given (fields kind a b word)) (number result) u.new }
    ensures buckets { u.new.buckets ≡ u.old.buckets }
    ensures windows { u.new.windows ≡ u.old.windows }
{
    let e = fields::decode(kind, a, b, word)?;
    unit::handle(e, u)
}

// Set n is set, or refusal 14. Of the rows levels, decay counts and activity alarms change, and no assignment.
// Not: the sets left as they were; the inputs of another set put at size; set and size in each other's place.
pub fn set_bucket(
    m: &mut Monitors,
    b: &mut Buckets,
    n: u8,
    size: u8,
    high: u8,
    low: u8,
    d: u8,
) -> Result<(), Refusal>
    ensures gives { (k : core.Core) (h : History) (w regs : List ℕ) → Gives (unit_of k m.old b.old h w regs) (set_bucket n size high low d) (number result) (unit_of k m.new b.new h w regs) }
    ensures rows { m.new ≡ with_activity m.old m.new.level m.new.decay m.new.activity }
    ensures assigned { b.new.assigned ≡ b.old.assigned }
{
    buckets::check_set(n, size, high, low, d)?;
    m.put_at_size(buckets::having(b.assigned, n), u16::from(size));
    *b = buckets::with_set(*b, n, size, high, low, d);
    Ok(())
}

// Input i is assigned set n, or the first of refusals 6 and 14 that fits. Of the rows levels, decay counts and activity alarms change, and no set.
// Not: the size of the set that the input had; every input put at size.
pub fn assign_bucket(m: &mut Monitors, b: &mut Buckets, i: u8, n: u8) -> Result<(), Refusal>
    ensures gives { (k : core.Core) (h : History) (w regs : List ℕ) → Gives (unit_of k m.old b.old h w regs) (assign_bucket i n) (number result) (unit_of k m.new b.new h w regs) }
    ensures rows { m.new ≡ with_activity m.old m.new.level m.new.decay m.new.activity }
    ensures sets { b.new.sets ≡ b.old.sets }
{
    buckets::check_assign(i, n)?;
    let concerned = at_input([0; 8], u32::from(i), [1; 8]);
    m.put_at_size(concerned, buckets::size_of(*b, n));
    *b = buckets::with_assigned(*b, i, n);
    Ok(())
}

// The place in the week is set, or refusal 16.
// Not: 4,725,000 let through; the wait put at 0.
pub fn set_week(k: &mut Core, place: u32) -> Result<(), Refusal>
    ensures { (m : rows.Monitors) (b : sets.Buckets) (h : History) (w regs : List ℕ) → Gives (unit_of k.old m b h w regs) (set_week place) (number result) (unit_of k.new m b h w regs) }
{
    week::check_week(place)?;
    k.place = place;
    Ok(())
}

// The first `count` windows are set, or refusal 16.
// Not: every count taken as 0; the numbers stored on a refusal.
pub fn set_windows(stored: &mut Windows, count: u8, windows: &Windows) -> Result<(), Refusal>
    ensures { (k : core.Core) (m : rows.Monitors) (b : sets.Buckets) (h : History) (regs : List ℕ) → Gives (unit_of k m b h stored.old regs) (set_windows (first_windows count windows.now)) (number result) (unit_of k m b h stored.new regs) }
{
    week::check_windows(count, windows)?;
    *stored = week::kept(count, windows);
    Ok(())
}
