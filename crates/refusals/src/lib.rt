// The refusal numbers (document 01, "Turned down", and the requests of document 02): a name for each. What is turned down gives its name as an error, and C and
// Rust are given its number, or 0 for what was carried out.
#![tactic(auto)]

ghost use Rattle.std.specs.Prelude.{◌≡◌};
ghost use Rattle.refusals.specs.Number.{number_of, number};

// Why an event, a call, a table or a sheet is turned down.
#[derive(Clone, Copy, PartialEq, Eq)]
pub enum Refusal {
    // 1: an address that is not in the map
    OutsideTheMap,
    // 2: a register that is read only
    ReadOnly,
    // 3: a value above the register's Largest
    AboveLargest,
    // 4: limits that would be less than 6 apart
    LimitsTooClose,
    // 5: a Hit with no reference 1 to 8 selected
    NothingToHit,
    // 6: an input that is not 1 to 8
    NoInput,
    // 7: a sample that is out of range
    SampleOutOfRange,
    // 8: a command that the history cannot carry out
    CommandNotPossible,
    // 9: a sheet of over 65,535 bytes, or of over 256 settings
    SheetTooLarge,
    // 10: a sheet that ends early
    SheetCutShort,
    // 11: a sheet with bytes after its events
    SheetLengthened,
    // 12: fields that are no event
    NoEvent,
    // 13: an output that is too short
    OutputTooShort,
    // 14: a bucket set or numbers that are out of bounds
    BucketOutOfBounds,
    // 15: a table of fresh values that does not load
    TableNotLoaded,
    // 16: a place or windows that are not of a week
    NotOfAWeek,
}

// The number of a refusal.
// Not: 13 for a sheet that ends early; 0 for no event.
impl From<Refusal> for u8 {
    fn from(r: Refusal) -> u8
        ensures { result ≡ number_of r }
    {
        match r {
            Refusal::OutsideTheMap => 1,
            Refusal::ReadOnly => 2,
            Refusal::AboveLargest => 3,
            Refusal::LimitsTooClose => 4,
            Refusal::NothingToHit => 5,
            Refusal::NoInput => 6,
            Refusal::SampleOutOfRange => 7,
            Refusal::CommandNotPossible => 8,
            Refusal::SheetTooLarge => 9,
            Refusal::SheetCutShort => 10,
            Refusal::SheetLengthened => 11,
            Refusal::NoEvent => 12,
            Refusal::OutputTooShort => 13,
            Refusal::BucketOutOfBounds => 14,
            Refusal::TableNotLoaded => 15,
            Refusal::NotOfAWeek => 16,
        }
    }
}

// The number that C and Rust are given: 0 for what was carried out, and else that of the refusal.
// Not: 1 for what was carried out; 12 for every refusal.
pub fn number<T>(given: &Result<T, Refusal>) -> u8
    ensures { result ≡ number given.now }
{
    match given {
        Ok(_) => 0,
        Err(r) => u8::from(*r),
    }
}
