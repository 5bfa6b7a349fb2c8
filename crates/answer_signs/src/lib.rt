// The signs with which variables stand in a solver's answer (RULES Q5 and Q6), in a table that is lent.
#![tactic(auto)]

ghost use Rattle.std.specs.Prelude.{◌≡◌, [], ◌≤◌, nat_abs};
ghost use Rattle.answer_signs.specs.Signs.{SignsOf, true_in, unclear_in};
ghost use Rattle.answer_signs.specs.Marks.{Marked, with_sign, TableTells};

use text_writer::parts_of;

// By variable: bit 0 where it stood plain, bit 1 where it stood negated. The last is the greatest variable that there may be.
pub type SignTable = [u8; 1198082];

// A table of no signs.
pub fn no_signs() -> SignTable
    ensures { SignsOf [] result }
{
    [0; 1198082]
}

// An entry with one sign more.
fn with_sign(entry: u8, sign: usize) -> u8
    ensures { result ≡ with_sign sign entry }
{
    if sign == 0 {
        if entry % 2 == 0 {
            return entry + 1;
        }
        return entry;
    }
    if entry < 2 {
        return entry + 2;
    }
    entry
}

// Puts the sign of a number that is not 0 into the table; one past the table is ignored.
pub fn mark(signs: &mut SignTable, number: i32)
    requires { 1 ≤ nat_abs number }
    ensures { Marked number signs.old signs.new }
{
    let parts = parts_of(number);
    let v = parts.value as usize;
    if v < 1198082 {
        signs[v] = with_sign(signs[v], parts.sign);
    }
}

// Whether a variable stood plain. One past the table did not.
pub fn is_true(signs: &SignTable, variable: u32) -> bool
    ensures truth { result ≡ true_in signs.now variable }
    ensures table { TableTells }
{
    let v = variable as usize;
    if v < 1198082 {
        return signs[v] % 2 == 1;
    }
    false
}

// Whether a variable is missing or stood with both signs. One past the table is missing.
pub fn is_unclear(signs: &SignTable, variable: u32) -> bool
    ensures { result ≡ unclear_in signs.now variable }
{
    let v = variable as usize;
    if v < 1198082 {
        let entry = signs[v];
        if entry == 0 {
            return true;
        }
        return entry == 3;
    }
    true
}
