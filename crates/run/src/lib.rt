// The run of a sheet on the standard fresh unit (document 01, "Run sheet and rack program"): its settings, its events and their records; and what run_c exports.
// Each contract is an equation with a rule of crates/rules/specs/Sheet.antt; the rule is named above the function.
#![tactic(auto)]

ghost use Rattle.std.specs.Prelude.{◌≡◌, ◌*◌, ◌≤◌, length, List, ℕ};
ghost use Rattle.rules.specs.Run as rules;
ghost use Rattle.rules.specs.Sheet as rules-sheet;
ghost use Rattle.rules.specs.Sheet.{settings_of, events_of, record_of, records, front, over, output_after};
ghost use Rattle.rules.specs.Registers.{settings_from};
ghost use Rattle.buckets.specs.declared.Buckets.{Buckets};
ghost use Rattle.history.specs.declared.History as sums;
ghost use Rattle.selection.specs.Bridge.{Follows};
ghost use Rattle.state.specs.Stored.{meaning, unit_of};

use history::History;
use inputs::Monitors;
use refusals::number;
use registers::Registers;
use selection::Handed;
use state::{Core, Unit};

// ---- the run
// A part of the sheet or of the output may be longer than what counts of it, which n says, as in the rules `settings_of n` and `events_of n`; by one
// index both an event and its record are found. Core, inputs, registers and history lie apart while they run: see crates/unit.

// The rule `record_of`, at the front of a part of the output.
fn put_record(out: &mut [u8], refusal: u8, k: Core, m: &Monitors)
    requires { 4 ≤ length out.old }
    ensures { (b : Buckets) (h : sums.History) (w regs : List ℕ) → out.new ≡ over (record_of (record { refusal = refusal; state = meaning (unit_of k m.now b h w regs) })) out.old }
{
    let mode = k.pll.mode;
    let status = readout::status_byte(
        mode,
        history::is_ready(k.tally),
        history::holds_backup(k.tally),
    );
    let state = readout::state_byte(mode, k.choice.selected);
    let qualified = m.qualified_mask();
    // The refusal is its number, as the record has it. Four stores of four names are as plain as an array of them that is copied.
    out[0] = refusal;
    out[1] = state;
    out[2] = qualified;
    out[3] = status;
}

// n settings run as writes: the core after them.
fn run_settings(
    part: &[u8],
    n: usize,
    start: Core,
    m: &Monitors,
    regs: &mut Registers,
    handed: &mut Handed,
    h: &mut History,
    out: &mut [u8],
) -> Core
    requires { (2 * n ≤ length part.now) × (4 * n ≤ length out.old) × Follows (settings_from regs.old) handed.old.keys handed.old.floor }
    ensures rule { (b : Buckets) (w : List ℕ) → meaning (unit_of result m.now b h.new w regs.new) ≡ rules.run (meaning (unit_of start m.now b h.old w regs.old)) (settings_of n part.now) }
    ensures out_after { (b : Buckets) (w : List ℕ) → out.new ≡ over (records (meaning (unit_of start m.now b h.old w regs.old)) (settings_of n part.now)) out.old }
    ensures follows { Follows (settings_from regs.new) handed.new.keys handed.new.floor }
{
    let mut k = start;
    for i in 0..n {
        let given = unit::write(part[2 * i], part[2 * i + 1], k, regs, handed, h);
        let refusal = number(&given);
        k = given.unwrap_or(k);
        put_record(&mut out[4 * i..], refusal, k, m);
    }
    k
}

// n events run, up to the first that is none, on unit u. Its parts lie here while they run.
fn run_events(part: &[u8], n: usize, u: Unit, mut handed: Handed, out: &mut [u8])
    requires { (8 * n ≤ length part.now) × (4 * n ≤ length out.old) × Follows (settings_from u.regs) handed.keys handed.floor }
    ensures { out.new ≡ over (records (meaning u) (events_of n part.now)) out.old }
{
    let mut k = u.core;
    let mut m = u.monitors;
    let numbers = buckets::numbers_of(u.buckets);
    let mut h = u.history;
    let windows = u.windows;
    let mut regs = u.regs;
    for i in 0..n {
        let Ok(e) = sheet::read_event(&part[8 * i..]) else {
            return;
        };
        let given = unit::step(
            e,
            k,
            &mut m,
            &numbers,
            &mut regs,
            &mut handed,
            &windows,
            &mut h,
        );
        let refusal = number(&given);
        k = given.unwrap_or(k);
        put_record(&mut out[4 * i..], refusal, k, &m);
    }
}

// The rules `front` and `output_after`: runs a sheet into the front of the output, and says how many bytes that is, 0 where the sheet is refused.
// Not: a refused sheet run all the same; the bytes after the records cleared.
pub fn run_into(sheet: &[u8], out: &mut [u8]) -> usize
    ensures value { result ≡ length (front sheet.now (length out.old)) }
    ensures out_after { out.new ≡ output_after sheet.now out.old }
{
    let Ok(c) = sheet::check(sheet, out.len()) else {
        return 0;
    };
    let fresh = Unit::fresh();
    // What a setting may change lies apart from the rest: so the compiler knows the sets of a fresh unit in the loop of the events.
    let mut regs = fresh.regs;
    let mut history = fresh.history;
    let mut handed = selection::handed_by(&regs);
    let core = run_settings(
        &sheet[2..],
        c.settings,
        fresh.core,
        &fresh.monitors,
        &mut regs,
        &mut handed,
        &mut history,
        &mut out[..],
    );
    let u = Unit {
        core,
        history,
        regs,
        ..fresh
    };
    let start = 2 + 2 * c.settings + 2;
    let next = 4 * c.settings;
    run_events(&sheet[start..], c.events, u, handed, &mut out[next..]);
    4 * (c.settings + c.events)
}

// The rule `front`: runs a sheet, and hands back the written front part of the output, empty where the sheet is refused.
// Not: a part that starts a record later.
pub fn run<'a>(sheet: &[u8], out: &'a mut [u8]) -> &'a mut [u8]
    ensures result_value { result.now ≡ front sheet.now (length out.old) }
    ensures ref_ptr_value { result.ref_ptr ≡ out.entry.ref_ptr }
{
    let n = run_into(sheet, out);
    &mut out[..n]
}

// ---- what run_c exports

// `sheet::check`, for C and Rust.
// Not: every output taken as long enough; room asked for the events' records alone.
pub fn sheet_check(sheet: &[u8], room: usize) -> u8
    ensures { result ≡ rules-sheet.check sheet.now room }
{
    number(&sheet::check(sheet, room))
}

// `run_into`, for C and Rust.
// Not: the length of the output returned; the number of records returned.
pub fn sheet_run(sheet: &[u8], out: &mut [u8]) -> usize
    ensures value { result ≡ length (front sheet.now (length out.old)) }
    ensures out_after { out.new ≡ output_after sheet.now out.old }
{
    run_into(sheet, out)
}
