// The bytes that `frames` prints (RULES P2 and P3): header, clauses, refusal.
#![tactic(auto)]

ghost use Rattle.std.specs.Prelude.{◌≡◌, ◌+◌, ◌≤◌, leb, length};
ghost use Rattle.model.specs.Wrote.{Wrote};
ghost use Rattle.refusals.specs.Slices.{count_reply};
ghost use Rattle.text_writer.specs.Table.{TableOrNone};
ghost use Rattle.text_writer.specs.Extends.{Extends};
ghost use Rattle.dimacs.specs.Text.{header_text, number_text, clause_text, OtherNumbers, NumberPrinted, refusal_text};
ghost use Rattle.decimal.specs.Digits.{signed_digits};
ghost use Rattle.decimal.specs.WroteAtEnd.{WroteAtEnd};
ghost use Rattle.dimacs.specs.PrintCalls.{print_sent, print_leaves, fill_leaves};

use decimal::{digit_count, fill_digits, put_field};
use refusals::{Refusal, Refused, Written};
use text_writer::{parts_of, write_byte, write_ended, write_signed_spaced, write_word};

// Writes a clause number or an end mark, and the byte behind it, from place `at` on, and answers where it ends.
fn write_number(out: &mut [u8], at: usize, z: i32, table: &[u8]) -> usize
    requires { TableOrNone table.now × (at + length (number_text z) ≤ length out.old) }
    ensures { Extends (number_text z) at out.old out.new result }
{
    if z == 0 {
        let next = at + 1;
        out[at] = b'0';
        out[next] = b'\n';
        return at + 2;
    }
    write_signed_spaced(out, at, z, table)
}

// Writes numbers with end marks, a clause a line, in one pass, and answers how many bytes that is.
pub fn write_numbers(out: &mut [u8], numbers: &[i32], table: &[u8]) -> usize
    requires { TableOrNone table.now × (length (clause_text numbers.now) ≤ length out.old) }
    ensures { Wrote (clause_text numbers.now) out.old out.new result }
{
    let mut at = 0;
    for &z in numbers {
        at = write_number(out, at, z, table);
    }
    at
}

// How many bytes a number takes.
fn number_length(z: i32) -> usize
    ensures { (result ≡ length (signed_digits z)) × (result ≤ 11) }
{
    let parts = parts_of(z);
    parts.sign + digit_count(parts.value)
}

// Whether the text of numbers with end marks is no longer than the room. Their lengths are taken off the room: their sum might not fit.
fn clauses_fit(room: usize, numbers: &[i32]) -> bool
    ensures { result ≡ leb (length (clause_text numbers.now)) room }
{
    let mut remaining = room;
    for &z in numbers {
        let need = number_length(z) + 1;
        if remaining < need {
            return false;
        }
        remaining -= need;
    }
    true
}

// Writes the header into a slice that has room for it.
pub fn write_header(out: &mut [u8], variables: u32, clauses: u32) -> usize
    requires { length (header_text variables clauses) ≤ length out.old }
    ensures { Wrote (header_text variables clauses) out.old out.new result }
{
    let before = write_word(out, b"p cnf ");
    let middle = before + write_ended(&mut out[before..], variables, b' ');
    middle + write_ended(&mut out[middle..], clauses, b'\n')
}

// Writes a refusal into a slice that has room for it.
pub fn write_refusal(out: &mut [u8], number: u32, place: u32) -> usize
    requires { length (refusal_text number place) ≤ length out.old }
    ensures { Wrote (refusal_text number place) out.old out.new result }
{
    let before = write_word(out, b"refused");
    let middle = before + put_field(&mut out[before..], number);
    let end = middle + put_field(&mut out[middle..], place);
    end + write_byte(&mut out[end..], b'\n')
}

// Prints DIMACS' problem line: the numbers of variables and of clauses.
pub fn put_header(out: &mut [u8], variables: u32, clauses: u32) -> Written
    ensures answer { count_reply result ≡ print_sent (header_text variables clauses) (length out.old) }
    ensures borrowed { out.new ≡ print_leaves (header_text variables clauses) out.old }
{
    if out.len() < 8 + digit_count(variables) + digit_count(clauses) {
        return Err(Refused(Refusal::NoRoom, 0));
    }
    Ok(write_header(out, variables, clauses))
}

// Prints numbers with end marks, a clause a line. Any 32-bit number is printed in decimal, also the least, which is no clause number,
// and 0 ends a line wherever it stands. It fills no table: that takes longer than a group does without it.
pub fn put_clauses(out: &mut [u8], numbers: &[i32]) -> Written
    ensures answer { count_reply result ≡ print_sent (clause_text numbers.now) (length out.old) }
    ensures borrowed { out.new ≡ print_leaves (clause_text numbers.now) out.old }
    ensures others { OtherNumbers }
{
    if clauses_fit(out.len(), numbers) {
        return Ok(write_numbers(out, numbers, b""));
    }
    Err(Refused(Refusal::NoRoom, 0))
}

// Prints a refusal: its number and place in ten columns each.
pub fn put_refusal(out: &mut [u8], number: u32, place: u32) -> Written
    ensures answer { count_reply result ≡ print_sent (refusal_text number place) (length out.old) }
    ensures borrowed { out.new ≡ print_leaves (refusal_text number place) out.old }
{
    if out.len() < 28 {
        return Err(Refused(Refusal::NoRoom, 0));
    }
    Ok(write_refusal(out, number, place))
}

// Whether a number is no longer than the room. Its digits are counted only where the room is shorter than the longest number.
fn number_fits(room: usize, z: i32) -> bool
    ensures { result ≡ leb (length (signed_digits z)) room }
{
    if 11 <= room {
        return true;
    }
    number_length(z) <= room
}

// Fills a number from the right into the end of a slice that has room for it: its digits, and a minus before them only below zero.
fn fill_number(out: &mut [u8], z: i32) -> usize
    requires { length (signed_digits z) ≤ length out.old }
    ensures { WroteAtEnd (signed_digits z) out.old out.new result }
{
    let parts = parts_of(z);
    let count = fill_digits(out, parts.value);
    if parts.sign == 0 {
        return count;
    }
    let before = out.len() - count;
    out[before - 1] = b'-';
    count + 1
}

// Prints any 32-bit number in decimal, from the right into the end of a buffer.
pub fn put_number(out: &mut [u8], z: i32) -> Written
    ensures answer { count_reply result ≡ print_sent (signed_digits z) (length out.old) }
    ensures borrowed { out.new ≡ fill_leaves (signed_digits z) out.old }
    ensures printed { NumberPrinted }
{
    if number_fits(out.len(), z) {
        return Ok(fill_number(out, z));
    }
    Err(Refused(Refusal::NoRoom, 0))
}
