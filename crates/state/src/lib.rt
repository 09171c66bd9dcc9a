// What a unit stores: numbers that go by value, and arrays; and a fresh unit, by value and where one lies. specs/Stored.antt says which state of the rules it is.
#![tactic(auto)]

ghost use Rattle.std.specs.Prelude.{◌≡◌};
ghost use Rattle.rules.specs.Registers as rules;
ghost use Rattle.rules.specs.Registers.{settings_from};
ghost use Rattle.state.specs.Stored.{meaning, Made, core_is_fresh};

use buckets::Buckets;
use history::{History, Tally};
use inputs::Monitors;
use pll::Loop;
use registers::Registers;
use selection::Choice;
use week::Windows;

// The numbers that are in no array, which an event takes and gives by value: the history's tally, the choice, the ticks in Holdover, the place in the week, and
// the PLL.
#[repr(C)]
#[derive(Clone, Copy)]
pub struct Core {
    pub tally: Tally,
    pub choice: Choice,
    pub holding: u32,
    pub place: u32,
    pub pll: Loop,
}

// The whole state, as a host holds it. There is no padding: units whose fields are the same have the same bytes.
#[repr(C)]
#[derive(Drop)]
pub struct Unit {
    pub core: Core,
    // The inputs' rows, and the bucket sets beside them.
    pub monitors: Monitors,
    pub buckets: Buckets,
    pub history: History,
    pub windows: Windows,
    pub regs: Registers,
}

impl Core {
    // Of a fresh unit.
    fn fresh() -> Core
        ensures { core_is_fresh result }
    {
        Core {
            tally: history::fresh_tally(),
            choice: selection::settled(0),
            holding: 0,
            place: 0,
            pll: pll::fresh_loop(),
        }
    }
}

impl Unit {
    // The rule `fresh`: the standard fresh unit.
    // Not: registers of 0; set 1 for input 8.
    pub fn fresh() -> Unit
        ensures { Made result }
    {
        Unit {
            core: Core::fresh(),
            monitors: Monitors::fresh(),
            buckets: buckets::fresh_buckets(),
            history: History {
                sums: [0; 64],
                building: [0; 64],
                backup: [0; 64],
            },
            windows: week::no_windows(),
            regs: registers::fresh_registers(),
        }
    }

    // The rule `fresh_with`: made a fresh unit with these registers, whatever lay there; each part where it lies, since a unit by value is copied.
    // Not: the standard registers for those given; a row that is not made anew.
    pub fn make_with(&mut self, values: &Registers)
        ensures { meaning self.new ≡ rules.fresh_with (settings_from values.now) }
    {
        self.core = Core::fresh();
        self.monitors = Monitors::fresh();
        self.buckets = buckets::fresh_buckets();
        self.history.sums = [0; 64];
        self.history.building = [0; 64];
        self.history.backup = [0; 64];
        self.windows = week::no_windows();
        self.regs = *values;
    }

    // The rule `fresh`: made the standard fresh unit, whatever lay there.
    // Not: registers of 0; the soaks left as they were.
    pub fn make(&mut self)
        ensures { Made self.new }
    {
        self.make_with(&registers::fresh_registers());
    }
}
