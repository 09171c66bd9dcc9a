// librun.a: what the crate run offers to C and Rust. A crate that others use exports nothing, so each function here is that of run, by its clauses.
#![tactic(auto)]

ghost use Rattle.std.specs.Prelude.{◌≡◌, length};
ghost use Rattle.rules.specs.Sheet as rules;
ghost use Rattle.rules.specs.Sheet.{front, output_after};

// `sheet_check` of the crate run, exported.
// Not: the length of the sheet for the room.
#[unsafe(no_mangle)]
pub extern "C" fn sheet_check(sheet: &[u8], room: usize) -> u8
    ensures { result ≡ rules.check sheet.now room }
{
    run::sheet_check(sheet, room)
}

// `sheet_run` of the crate run, exported.
// Not: nothing run and 0 returned.
#[unsafe(no_mangle)]
pub extern "C" fn sheet_run(sheet: &[u8], out: &mut [u8]) -> usize
    ensures value { result ≡ length (front sheet.now (length out.old)) }
    ensures out_after { out.new ≡ output_after sheet.now out.old }
{
    run::sheet_run(sheet, out)
}
