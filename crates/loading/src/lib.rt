// A fresh unit of the buyer's own values (document 02, #105): which tables of bytes load, and the unit that a table makes.
#![tactic(auto)]

ghost use Rattle.std.specs.Prelude.{◌≡◌, ℕ, leb, length, get_or};
ghost use Rattle.std.specs.List.{list_all, enumerate_from};
ghost use Rattle.rules.specs.Registers.{map_size, registers, reads, slot, stored, settings_from};
ghost use Rattle.rules.specs.Loading as rules;
ghost use Rattle.rules.specs.Loading.{load_refusal, loading};
ghost use Rattle.refusals.specs.Number.{number};
ghost use Rattle.unit.specs.Given.{Leads};

use refusals::Refusal;
use registers::{COMMAND_SLOT, QUALIFICATION_SLOT, REGISTERS, REJECT_SLOT, Registers};
use state::Unit;

// ---- the check

// The most that a table may have in slot k: 0 for the command, 0x26, and for a register that is read only.
#[tactic(auto, using(crate::proofs::Bytes::command_here), unfolding(rules::specs::Loading::most, registers::specs::Bridge::row))]
fn most(k: usize) -> u8
    ensures { result ≡ rules.most (get_or registers k (reads 0)) }
{
    match registers::row_at(k) {
        None => 0,
        Some(_) if k == COMMAND_SLOT => 0,
        Some(register) => register.largest,
    }
}

// No byte of a table is above that.
fn within(table: &[u8]) -> bool
    ensures { result ≡ list_all (λ p. leb p.1 (rules.most (get_or registers p.0 (reads 0)))) (enumerate_from 0 table.now) }
{
    table.iter().enumerate().all(|(k, v)| *v <= most(k))
}

// Whether a table loads, or refusal 15.
// Not: 28 bytes load; limits 5 apart load; the limits in each other's place.
#[tactic(auto, using(crate::proofs::Bytes::all_small), unfolding(rules::specs::Loading::load_refusal, rules::specs::Loading::loads, rules::specs::Refusals::limits_apart, rules::specs::Registers::settings_from, rules::specs::Registers::slot))]
pub fn check_table(table: &[u8]) -> Result<(), Refusal>
    ensures { number result ≡ load_refusal table.now }
{
    if table.len() == REGISTERS
        && within(table)
        && writes::limits_apart(table[REJECT_SLOT], table[QUALIFICATION_SLOT])
    {
        Ok(())
    } else {
        Err(Refusal::TableNotLoaded)
    }
}

// ---- the unit
// It is made by slot, since a table of bytes has no addresses: `kept` is `writes::stored` by slot.

// What is stored in slot k: of the table's byte there, and 0 past it. Slots 0 to 7 are 0x1c to 0x23, whose bits 7-4 are dropped.
#[tactic(auto, unfolding(rules::specs::Registers::slot, rules::specs::Registers::stored, rules::specs::Registers::settings_from))]
fn kept(table: &[u8], k: usize) -> u8
    requires { length table.now ≡ map_size }
    ensures { (a : ℕ) → slot a ≡ k → result ≡ stored a (settings_from table.now a) }
{
    let v = table.get(k).copied().unwrap_or(0);
    if k < 8 { v % 16 } else { v }
}

// The registers that a table makes.
fn registers_from(table: &[u8]) -> Registers
    requires { length table.now ≡ map_size }
    ensures { settings_from result ≡ (λ a. stored a (settings_from table.now a)) }
{
    std::array::from_fn(|k| kept(table, k))
}

// The rule `loading`: the unit is made anew of a table that loads, or refusal 15 and the same unit.
// Not: the byte beside it stored; a refusal makes the unit anew.
#[tactic(auto, unfolding(rules::specs::Loading::load_refusal, rules::specs::Loading::loads, rules::specs::Loading::loading, rules::specs::Loading::fresh_from))]
pub fn load(u: &mut Unit, table: &[u8]) -> Result<(), Refusal>
    ensures { Leads u.old (loading table.now) (number result) u.new }
{
    check_table(table)?;
    u.make_with(&registers_from(table));
    Ok(())
}
