// The fields of one event of a run sheet (document 01, "Run sheet and rack program", and document 02, #106): kind, a, b and the word.
// The contract is an equation with a rule of crates/rules/specs/Sheet.antt through specs/Bridge.antt; the rule is named above the function.
// Kind, a and b are bytes, as a sheet and C hand them over (C interface): here they become an `Event`.
#![tactic(auto)]

ghost use Rattle.std.specs.Prelude.{◌≡◌};
ghost use Rattle.refusals.specs.Number.{number};
ghost use Rattle.rules.specs.Sheet as rules;
ghost use Rattle.fields.specs.Bridge.{decoded_of};

use refusals::Refusal;
use unit::Event;

// The rule `fields`, and of what is no event the number that `decoded_number` gives: 12, "kind over 3, lock over 1, or unused field not 0"; #106: kinds over 4,
// and a word of kind 4 that is no offset. "A measurement of the old kind means 32 times its byte".
// Not: a word that is not 0 let through in kinds 1 to 3; kind 4 with the offset in b.
#[tactic(auto, unfolding(rules::specs::Sheet::fields, rules::specs::Sheet::tick_of, rules::specs::Sheet::measurement_of, rules::specs::Sheet::hit_of, rules::specs::Sheet::write_of, rules::specs::Sheet::finer_of, rules::specs::Sheet::signed))]
pub fn decode(kind: u8, a: u8, b: u8, word: i32) -> Result<Event, Refusal>
    ensures value { decoded_of result ≡ rules.fields kind a b word }
    ensures number { number result ≡ rules.decoded_number (decoded_of result) }
{
    match (kind, a, b, word) {
        (0, _, 0 | 1, _) => Ok(Event::Tick(a, b == 1, word)),
        (1, _, _, 0) => Ok(Event::Measurement(a, 32 * i16::from(b.cast_signed()))),
        (2, 0, 0, 0) => Ok(Event::Hit),
        (3, _, _, 0) => Ok(Event::Write(a, b)),
        (4, _, 0, _) => {
            let offset = i16::try_from(word).map_err(|_| Refusal::NoEvent)?;
            Ok(Event::Measurement(a, offset))
        }
        _ => Err(Refusal::NoEvent),
    }
}
