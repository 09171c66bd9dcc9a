// The unit's state lent by the host (document 01: "The host owns the unit's state and lends it for each event; the event updates it and touches nothing
// else"). Eight functions are exported to C and Rust. Each lends the unit on, or the parts of it that are needed, to the function that does the work, and gives
// the number of a refusal, or 0.
// What a host holds after any list of calls follows from these contracts alone (crates/service): so each says in full what its call gives.
#![tactic(auto)]

ghost use Rattle.rules.specs.Events.{set_bucket, assign_bucket, set_week, set_windows};
ghost use Rattle.rules.specs.Week.{first_windows};
ghost use Rattle.rules.specs.Loading.{loading};
ghost use Rattle.rules.specs.Sheet as sheet;
ghost use Rattle.rules.specs.Sheet.{fields};
ghost use Rattle.state.specs.Stored.{Made};
ghost use Rattle.unit.specs.Given.{Leads, given};
ghost use Rattle.readout.specs.Shows.{Shows};

use refusals::number;
use state::Unit;
use week::Windows;

// The lent unit is made the standard fresh one, whatever it holds.
// Not: the assignments left as they were; the windows left as they were.
#[unsafe(no_mangle)]
pub extern "C" fn unit_make(u: &mut Unit)
    ensures { Made u.new }
{
    u.make();
}

// A lent unit is made anew of a table of bytes, of any length: 15 or 0. A refusal stores nothing.
// Not: the sets left as they were; a table that loads gives 15.
#[unsafe(no_mangle)]
pub extern "C" fn unit_load(u: &mut Unit, table: &[u8]) -> u8
    ensures { Leads u.old (loading table.now) result u.new }
{
    number(&loading::load(u, table))
}

// One event on a lent unit: the refusal number, 0 if it is accepted. A refusal stores nothing.
// Not: kind and a in each other's place; the sums and the backup lent in each other's place.
#[unsafe(no_mangle)]
pub extern "C" fn unit_event(u: &mut Unit, kind: u8, a: u8, b: u8, word: i32) -> u8
    ensures { Leads u.old (given (fields kind a b word)) result u.new }
{
    number(&calls::event(u, kind, a, b, word))
}

// A set of bucket numbers of a lent unit is set: 14 or 0. A refusal stores nothing.
// Not: set level and clear level in each other's place; the rows lent in another order; a refusal gives 0.
#[unsafe(no_mangle)]
pub extern "C" fn unit_set_bucket(
    u: &mut Unit,
    set: u8,
    size: u8,
    set_level: u8,
    clear_level: u8,
    decay: u8,
) -> u8
    ensures { Leads u.old (given (sheet.event (set_bucket set size set_level clear_level decay))) result u.new }
{
    number(&calls::set_bucket(
        &mut u.monitors,
        &mut u.buckets,
        set,
        size,
        set_level,
        clear_level,
        decay,
    ))
}

// An input of a lent unit is assigned a set: 6, 14 or 0. A refusal stores nothing.
// Not: input and set in each other's place; set 0's size for every set; the input not put at size.
#[unsafe(no_mangle)]
pub extern "C" fn unit_assign_bucket(u: &mut Unit, input: u8, set: u8) -> u8
    ensures { Leads u.old (given (sheet.event (assign_bucket input set))) result u.new }
{
    number(&calls::assign_bucket(&mut u.monitors, &mut u.buckets, input, set))
}

// The place in the week of a lent unit is set: 16 or 0. A refusal stores nothing.
// Not: 4,725,000 let through; the windows cleared.
#[unsafe(no_mangle)]
pub extern "C" fn unit_set_week(u: &mut Unit, place: u32) -> u8
    ensures { Leads u.old (given (sheet.event (set_week place))) result u.new }
{
    number(&calls::set_week(&mut u.core, place))
}

// The windows of a lent unit are set: 16 or 0. A refusal stores nothing.
// Not: nine windows let through; all sixteen numbers stored; the place reset; a refusal stored.
#[unsafe(no_mangle)]
pub extern "C" fn unit_set_windows(u: &mut Unit, count: u8, windows: &Windows) -> u8
    ensures { Leads u.old (given (sheet.event (set_windows (first_windows count windows.now)))) result u.new }
{
    number(&calls::set_windows(&mut u.windows, count, windows))
}

// A read of a lent unit: 256 times the refusal, plus the byte.
// Not: 1 for a refusal, not 256; a register that is read only refused.
#[unsafe(no_mangle)]
pub extern "C" fn unit_read(u: &Unit, address: u8) -> u16
    ensures { Shows u.now address result }
{
    readout::word(readout::read(u, address))
}
