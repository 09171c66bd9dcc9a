// The week of the busy hours (document 02, #107): whether a place lies in a window, the place after a tick, the one check of the calls, and what is stored of
// windows that pass it. Places and windows are in ticks from the week's start.
#![tactic(auto)]

ghost use Rattle.std.specs.Prelude.{◌≡◌, ◌&&◌, ◌≤◌, [], map, length};
ghost use Rattle.rules.specs.Week as rules;
ghost use Rattle.rules.specs.Week.{ascending, starts_week, ends_week, windows_fit, first_windows};
ghost use Rattle.rules.specs.Refusals.{week_refusal, windows_refusal};
ghost use Rattle.refusals.specs.Number.{number};
ghost use Rattle.week.specs.Bridge.{window_of, windows_of, kept_numbers};

use refusals::Refusal;

// "A week is 4,725,000 ticks".
const WEEK: u32 = 4_725_000;

// Start and end of each window in turn. An unused pair is 0 and 0; a pair whose start is not before its end is no window.
// Sixteen numbers, and beside them the count of a call, as C hands them over (C interface): each is valid, and there is no heap. `pairs` has them by twos.
pub type Windows = [u32; 16];

// "with no windows"
// Not: a window of the week's first tick; a window of the whole week.
#[tactic(auto, unfolding(rules::specs::Week::windows_from, crate::specs::Bridge::standing))]
pub fn no_windows() -> Windows
    ensures { windows_of result ≡ [] }
{
    [0; 16]
}

// ---- the place

// The windows, each a pair of its start and its end.
#[tactic(auto, using(crate::proofs::Windows::eight_pairs))]
fn pairs(windows: &Windows) -> &[[u32; 2]]
    ensures { map window_of result.now ≡ first_windows 8 windows.now }
{
    windows.as_chunks::<2>().0
}

// The rule `busy`: the place lies in one of the windows, "each from its first tick up to but not including its end".
// Not: a window's end blocks too; the eighth window left out.
pub fn is_busy(windows: &Windows, place: u32) -> bool
    ensures { result ≡ rules.busy (windows_of windows.now) place }
{
    pairs(windows)
        .iter()
        .any(|[start, end]| *start <= place && place < *end)
}

// The rule `advanced`: the place after a tick.
// Not: 4,725,000 after the week's last place; a stored place past the end goes on.
#[tactic(auto, unfolding(rules::specs::Week::advanced))]
pub fn advanced(place: u32) -> u32
    ensures { result ≡ rules.advanced place }
{
    if place < WEEK - 1 { place + 1 } else { 0 }
}

// ---- the check

// Turned down with 16: a place of 4,725,000 or more.
// Not: 4,725,000 passes; 4,724,999 does not.
#[tactic(auto, unfolding(rules::specs::Refusals::week_refusal))]
pub fn check_week(place: u32) -> Result<(), Refusal>
    ensures { number result ≡ week_refusal place }
{
    if place < WEEK {
        Ok(())
    } else {
        Err(Refusal::NotOfAWeek)
    }
}

// The rule `ascending`: each window is one of the week and starts after the end of the one before it.
#[tactic(auto, using(crate::proofs::Windows::ascending_at), unfolding(rules::specs::Week::ascending, rules::specs::Week::is_window))]
fn ascends(windows: &[[u32; 2]]) -> bool
    ensures { result ≡ ascending 0 (map window_of windows.now) }
{
    let mut from = 0;
    for [start, end] in windows {
        if *start < from || *end <= *start || WEEK < *end {
            return false;
        }
        from = *end + 1;
    }
    true
}

// "first at 0 with last ending the week"
#[tactic(auto, using(crate::proofs::Windows::starts_at, crate::proofs::Windows::ends_at, crate::proofs::Windows::none_start))]
fn meets_itself(windows: &[[u32; 2]]) -> bool
    ensures { result ≡ (starts_week (map window_of windows.now) && ends_week (map window_of windows.now)) }
{
    matches!(
        (windows.first(), windows.last()),
        (Some([0, _]), Some([_, WEEK]))
    )
}

// The rule `windows_fit`, of no more than eight windows.
#[tactic(auto, unfolding(rules::specs::Week::windows_fit))]
fn fit(windows: &[[u32; 2]]) -> bool
    ensures { length windows.now ≤ 8 → result ≡ windows_fit (map window_of windows.now) }
{
    ascends(windows) && !meets_itself(windows)
}

// Turned down with 16: windows that the check does not let through.
// Not: nine windows pass; the numbers after the first `count` windows are looked at.
#[tactic(auto, using(crate::proofs::Windows::pairs_long, crate::proofs::Windows::too_many))]
pub fn check_windows(count: u8, windows: &Windows) -> Result<(), Refusal>
    ensures { number result ≡ windows_refusal (first_windows count windows.now) }
{
    if 8 < count {
        return Err(Refusal::NotOfAWeek);
    }
    let given = &pairs(windows)[..usize::from(count)];
    if fit(given) {
        Ok(())
    } else {
        Err(Refusal::NotOfAWeek)
    }
}

// ---- what is stored

// The first `count` windows, and 0 and 0 for the others: those that the check lets through are stored whole (`stored_windows` in proofs/Storing).
// Not: all sixteen numbers kept; the last window lost.
pub fn kept(count: u8, windows: &Windows) -> Windows
    ensures { result ≡ kept_numbers count windows.now }
{
    let n = 2 * usize::from(count);
    std::array::from_fn(|k| if k < n { windows[k] } else { 0 })
}
