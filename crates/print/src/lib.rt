// A sheet run on the standard fresh unit and printed in one call (document 02, #101): its check, its records and their pages; and what is exported.
// Each contract is an equation with a rule of crates/rules/specs/Pages.antt; the rule is named above the function.
// The check takes the lengths of the outputs, and not the outputs, as that of a sheet does: it puts nothing.
#![tactic(auto)]

ghost use Rattle.std.specs.Prelude.{◌≡◌};
ghost use Rattle.rules.specs.Pages as rules;
ghost use Rattle.rules.specs.Pages.{print_check, Print};
ghost use Rattle.refusals.specs.Number.{number};

use refusals::Refusal;

// The rule `print_check`: why a sheet will not run for two outputs of these lengths.
fn print_check(sheet: &[u8], room: usize, paper: usize) -> Result<(), Refusal>
    ensures { number result ≡ print_check sheet.now room paper }
{
    let c = sheet::check(sheet, room)?;
    if pages::too_short(c.settings + c.events, paper) {
        return Err(Refusal::OutputTooShort);
    }
    Ok(())
}

// The rule `print`, for C and Rust: runs a sheet into the front of `records` and lays the records out over the front of `pages`. Says the number, 0 if it ran;
// a refusal leaves both.
// Not: the pages' room not looked at; pages of a sheet that is refused; the records not written.
#[unsafe(no_mangle)]
pub extern "C" fn sheet_print(sheet: &[u8], records: &mut [u8], pages: &mut [u8]) -> u8
    ensures { ◌≡◌ {A = Print} (record { number = result; records = records.new; pages = pages.new }) (rules.print sheet.now records.old pages.old) }
{
    if let Err(r) = print_check(sheet, records.len(), pages.len()) {
        return u8::from(r);
    }
    let n = run::run_into(sheet, records);
    pages::lay_out(&records[..n], pages);
    0
}
