// The registers (document 01, "Registers"): their table, and what the settings say.
// A unit keeps one byte for each register, in address order: 0x1c to 0x27, then 0x40 to 0x4e. The rules' settings are `settings_from` of these bytes.
// The bytes of 0x26 and of the registers that are read only stay 0: what these show is kept elsewhere.
// A register goes by its address, any byte of C's (C interface), or by its slot, its place in those bytes. Outside the map that is 27, and no `Option`: there
// lies a byte too, so any setting is read by one index and no test. The bytes are an array, which has no methods: they go beside the address asked for.
#![tactic(auto)]

ghost use Rattle.std.specs.Prelude.{◌≡◌, ◌+◌, get_or};
ghost use Rattle.rules.specs.Settings as settings;
ghost use Rattle.rules.specs.Registers as rules;
ghost use Rattle.rules.specs.Registers.{settings_from, fresh_table};
ghost use Rattle.registers.specs.Bridge.{row};

// How many registers there are.
pub const REGISTERS: usize = 27;

// The bytes that a unit keeps of them: a slot for each register, and some more, which stay 0 and fill the unit up to a multiple of eight bytes.
pub const SLOTS: usize = 32;

pub type Registers = [u8; SLOTS];

// The slots of registers that are read by their slot.
pub const FREE_RUN_SLOT: usize = 8;

pub const COMMAND_SLOT: usize = 10;

pub const MASK_SLOT: usize = 14;

pub const REJECT_SLOT: usize = 16;

pub const QUALIFICATION_SLOT: usize = 17;

// A row of the table that may be written: the columns Fresh and Largest. A register that is read only, column R, has neither: its row is `None`.
#[derive(Clone, Copy)]
pub struct Writable {
    pub fresh: u8,
    pub largest: u8,
}

// The rows, each by its register's name, and the table, a line for each register: as document 01 has them, those that are alike too.

// 0x1c to 0x23: revertive and priority of an input
const INPUT: Option<Writable> = Some(Writable {
    fresh: 0,
    largest: 255,
});
// 0x24: Free Run as a candidate
const FREE_RUN: Option<Writable> = Some(Writable {
    fresh: 0,
    largest: 31,
});
// 0x25: history policy
const POLICY: Option<Writable> = Some(Writable {
    fresh: 0,
    largest: 1,
});
// 0x26: history command
const COMMAND: Option<Writable> = Some(Writable {
    fresh: 0,
    largest: 3,
});
// 0x40: control
const CONTROL: Option<Writable> = Some(Writable {
    fresh: 0,
    largest: 1,
});
// 0x41: Op_Mode
const OP_MODE: Option<Writable> = Some(Writable {
    fresh: 0,
    largest: 9,
});
// 0x42: usable inputs
const MASK: Option<Writable> = Some(Writable {
    fresh: 255,
    largest: 255,
});
// 0x43: reversion delay in minutes
const DELAY: Option<Writable> = Some(Writable {
    fresh: 0,
    largest: 255,
});
// 0x44: reject limit
const REJECT: Option<Writable> = Some(Writable {
    fresh: 31,
    largest: 127,
});
// 0x45: qualification limit
const QUALIFICATION: Option<Writable> = Some(Writable {
    fresh: 25,
    largest: 127,
});
// 0x27, and 0x46 to 0x4e
const READ_ONLY: Option<Writable> = None;

// The table, in address order. A static: a constant array would be built anew on the stack for each use.
static TABLE: [Option<Writable>; REGISTERS] = [
    INPUT, // 0x1c
    INPUT, // 0x1d
    INPUT, // 0x1e
    INPUT, // 0x1f
    INPUT, // 0x20
    INPUT, // 0x21
    INPUT, // 0x22
    INPUT, // 0x23
    FREE_RUN, // 0x24
    POLICY, // 0x25
    COMMAND, // 0x26
    READ_ONLY, // 0x27
    CONTROL, // 0x40
    OP_MODE, // 0x41
    MASK, // 0x42
    DELAY, // 0x43
    REJECT, // 0x44
    QUALIFICATION, // 0x45
    READ_ONLY, // 0x46
    READ_ONLY, // 0x47
    READ_ONLY, // 0x48
    READ_ONLY, // 0x49
    READ_ONLY, // 0x4a
    READ_ONLY, // 0x4b
    READ_ONLY, // 0x4c
    READ_ONLY, // 0x4d
    READ_ONLY, // 0x4e
];

// The slot of an address in the map, 0 to 26; 27 for an address that is not in it.
// Not: from 0x40 on one slot too high; 0x4e outside the map.
#[tactic(auto, unfolding(rules::specs::Registers::slot))]
pub fn slot(a: u8) -> usize
    ensures { result ≡ rules.slot a }
{
    match a {
        0x1c..=0x27 => usize::from(a - 0x1c),
        0x40..=0x4e => usize::from(a - 0x34),
        _ => REGISTERS,
    }
}

// Whether an address is in the map.
// Not: 0x4e is not; every address is.
#[tactic(auto, unfolding(rules::specs::Registers::in_map))]
pub fn in_map(a: u8) -> bool
    ensures { result ≡ rules.in_map a }
{
    slot(a) < REGISTERS
}

// A register's row by its slot; past the map, the row of one that is read only.
// Not: the row beside it; past the map a row that may be written.
pub fn row_at(k: usize) -> Option<Writable>
    ensures { result ≡ row (get_or rules.registers k (rules.reads 0)) }
{
    if k < REGISTERS { TABLE[k] } else { READ_ONLY }
}

// A register's row by its address; an address that is not in the map has the row of one that is read only.
// Not: the hours, 0x27, may be written; Largest 15 for 0x24.
#[tactic(auto, using(crate::proofs::Table::any_row), unfolding(rules::specs::Registers::register))]
pub fn register_at(a: u8) -> Option<Writable>
    ensures { result ≡ row (rules.register a) }
{
    row_at(slot(a))
}

// The column Fresh by its slot; 0 for a register that is read only, and past the map.
fn fresh_at(k: usize) -> u8
    ensures { result ≡ get_or fresh_table k 0 }
{
    row_at(k).map_or(0, |r| r.fresh)
}

// The registers of the standard fresh unit: the column Fresh.
// Not: a mask of 254; every byte 0.
#[inline(never)]
pub fn fresh_registers() -> Registers
    ensures { settings_from result ≡ settings_from fresh_table }
{
    // By turns over the registers alone: so the compiler makes the bytes, and no call computes them, as with `from_fn` over the slots it does. Out of line, since
    // a run that knows these bytes takes longer for each event.
    let mut regs = [0; SLOTS];
    for k in 0..REGISTERS {
        regs[k] = fresh_at(k);
    }
    regs
}

// ---- the settings

// The setting at an address. An address that is not in the map has the byte behind the last register.
// Not: the setting beside it; 255 outside the map.
#[tactic(auto, using(crate::proofs::Slots::slot_le), unfolding(rules::specs::Registers::settings_from))]
pub fn setting(regs: &Registers, a: u8) -> u8
    ensures { result ≡ settings_from regs.now a }
{
    regs[slot(a)]
}

// 0x40: automatic control.
// Not: automatic at 0; always automatic.
pub fn is_automatic(regs: &Registers) -> bool
    ensures { result ≡ settings.automatic (settings_from regs.now) }
{
    setting(regs, 0x40) == 1
}

// The register of candidate c, 0x1b + c: 0x1c to 0x23 for the inputs 1 to 8, 0x24 for Free Run, 9. An address past 255 is not in the map.
#[tactic(auto, using(crate::proofs::Slots::slot_past), unfolding(rules::specs::Registers::settings_from))]
fn own_register(regs: &Registers, c: u32) -> u8
    ensures { result ≡ settings_from regs.now (0x1b + c) }
{
    // tried `u8::try_from` of the sum: five instructions more at each tick of a wait
    if c <= 228 {
        setting(regs, 0x1b + c as u8)
    } else {
        regs[REGISTERS]
    }
}

// Bit 3 of candidate c's register: revertive.
// Not: bit 2 of it; the register before it.
#[tactic(auto, unfolding(rules::specs::Settings::revertive, rules::specs::Words::bit))]
pub fn is_revertive(regs: &Registers, c: u32) -> bool
    ensures { result ≡ settings.revertive (settings_from regs.now) c }
{
    own_register(regs, c) / 8 % 2 == 1
}
