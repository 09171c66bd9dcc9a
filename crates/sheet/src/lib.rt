// The bytes of a run sheet (document 01, "Run sheet and rack program"): its counts, its events, and its check.
// Each contract is an equation with a rule of crates/rules/specs/Sheet.antt; the rule is named above the function.
#![tactic(auto)]

ghost use Rattle.std.specs.Prelude.{◌≡◌, ◌+◌, ◌*◌, ◌/◌, ◌≤◌, ◌<◌, length, IfOk, if◌then◌else◌};
ghost use Rattle.fields.specs.Bridge.{decoded_of};
ghost use Rattle.refusals.specs.Number.{number};
ghost use Rattle.rules.specs.Sheet as rules;
ghost use Rattle.rules.specs.Sheet.{word16, settings_count, events_count, all_events};

use refusals::Refusal;
use unit::Event;

// ---- events

// The rule `decode`: the event in the first 8 bytes of a part of the sheet. A shorter part has none.
// Not: a and b in the other order; the word's high byte first; byte 3 not looked at.
#[tactic(auto, unfolding(rules::specs::Sheet::decode, rules::specs::Sheet::signed))]
pub fn read_event(part: &[u8]) -> Result<Event, Refusal>
    ensures value { 8 ≤ length part.now → decoded_of result ≡ rules.decode part.now }
    ensures short { length part.now < 8 → decoded_of result ≡ rules.bad }
    ensures number { number result ≡ rules.decoded_number (decoded_of result) }
{
    match *part {
        [kind, a, b, 0, w0, w1, w2, w3, ..] => {
            fields::decode(kind, a, b, i32::from_le_bytes([w0, w1, w2, w3]))
        }
        _ => Err(Refusal::NoEvent),
    }
}

// The rule `all_events`: each event of a part of the sheet is one.
#[tactic(auto, using(crate::proofs::Events::event_more), unfolding(rules::specs::Sheet::is_event, rules::specs::Sheet::all_events))]
fn read_all(part: &[u8]) -> Result<(), Refusal>
    ensures { number result ≡ (if all_events (length part.now / 8) part.now then 0 else rules.decoded_number rules.bad) }
{
    for event in part.chunks_exact(8) {
        read_event(event)?;
    }
    Ok(())
}

// ---- the counts

// How many settings and events a sheet has.
// Counts and places beside the sheet, as document 01 lays it out: nothing is copied out of it, since there is no heap.
#[derive(Clone, Copy)]
pub struct Counts {
    pub settings: usize,
    pub events: usize,
}

// The rule `word16`, as a section's count. A byte that the sheet does not have counts as 0.
// By its place, and no slice: a short sheet has none there.
fn count_at(s: &[u8], at: usize) -> usize
    requires { at < 131_074 }
    ensures { (result ≡ word16 s.now at) × (result < 65_536) }
{
    let low = s.get(at).copied().unwrap_or(0);
    let high = s.get(at + 1).copied().unwrap_or(0);
    usize::from(u16::from_le_bytes([low, high]))
}

// The rules `settings_count` and `events_count`.
// Not: the high byte first; the events' count read at the settings' place.
#[tactic(auto, unfolding(rules::specs::Sheet::settings_count, rules::specs::Sheet::events_count, rules::specs::Sheet::events_at))]
pub fn counts_of(sheet: &[u8]) -> Counts
    ensures value { (result.settings ≡ settings_count sheet.now) × (result.events ≡ events_count sheet.now) }
    ensures bound { (result.settings < 65_536) × (result.events < 65_536) }
{
    let settings = count_at(sheet, 0);
    let events = count_at(sheet, 2 + 2 * settings);
    Counts { settings, events }
}

// ---- the check
// It takes the length of the output, and not the output, as `sheet_check` of C does (C interface): it puts nothing there.

// The rule `check`: the counts of a sheet that will run into an output of room bytes, or why it will not.
// Not: the room looked at before the events.
#[tactic(auto, using(rules::proofs::Parts::part_all), unfolding(rules::specs::Sheet::check, rules::specs::Sheet::settings_count, rules::specs::Sheet::events_at, rules::specs::Sheet::events_count, rules::specs::Sheet::sheet_end, rules::specs::Sheet::record_count))]
pub fn check(sheet: &[u8], room: usize) -> Result<Counts, Refusal>
    ensures number { number result ≡ rules.check sheet.now room }
    ensures counts { IfOk result (λ c. (c.settings ≡ settings_count sheet.now) × (c.events ≡ events_count sheet.now)) }
    ensures bound { IfOk result (λ c. (c.settings ≤ 256) × (c.events ≤ 8_191)) }
    ensures whole { IfOk result (λ c. length sheet.now ≡ 2 + 2 * c.settings + 2 + 8 * c.events) }
    ensures fits { IfOk result (λ c. 4 * (c.settings + c.events) ≤ room) }
{
    let c = counts_of(sheet);
    if 65_535 < sheet.len() || 256 < c.settings {
        return Err(Refusal::SheetTooLarge);
    }
    let start = 2 + 2 * c.settings + 2;
    let end = start + 8 * c.events;
    if sheet.len() < end {
        return Err(Refusal::SheetCutShort);
    }
    if end < sheet.len() {
        return Err(Refusal::SheetLengthened);
    }
    read_all(&sheet[start..])?;
    if room < 4 * (c.settings + c.events) {
        return Err(Refusal::OutputTooShort);
    }
    Ok(c)
}
