// Text written into a borrowed slice: a byte, a word, and numbers with a space behind them, fast where a table of all groups of four
// digits is at hand.
#![tactic(auto)]

ghost use Rattle.std.specs.Prelude.{◌≡◌, [], ◌∷◌, ◌++◌, ◌+◌, ◌≤◌, ◌<◌, ◌/◌, ◌%◌, length};
ghost use Rattle.decimal.specs.Digits.{digits, space, signed_digits};
ghost use Rattle.model.specs.Wrote.{Wrote};
ghost use Rattle.text_writer.specs.Table.{pair_digits, four_digits, table_below, TableOrNone};
ghost use Rattle.text_writer.specs.Signed.{parts_of};
ghost use Rattle.text_writer.specs.Extends.{Extends};

use decimal::put_digits;

// Writes one byte, and answers one.
pub fn write_byte(out: &mut [u8], byte: u8) -> usize
    requires { 1 ≤ length out.old }
    ensures { Wrote (byte ∷ []) out.old out.new result }
{
    out[0] = byte;
    1
}

// Writes a word as it is, and answers its length.
pub fn write_word(out: &mut [u8], word: &[u8]) -> usize
    requires { length word.now ≤ length out.old }
    ensures { Wrote word.now out.old out.new result }
{
    let count = word.len();
    out[..count].copy_from_slice(word);
    count
}

// How many ten thousands a number below 1,500,000 has. Below that bound one product and one shift do: less than a compiler, which
// does not know the bound, makes of the division.
fn ten_thousands(x: u32) -> u32
    requires { x < 1500000 }
    ensures { result ≡ x / 10000 }
{
    ((x as u64) * 429497 / 4294967296) as u32
}

// Writes both digits of a number below 100, a leading zero included, and answers two.
fn put_two_digits(out: &mut [u8], x: u32) -> usize
    requires { (x < 100) × (2 ≤ length out.old) }
    ensures { Wrote (pair_digits x) out.old out.new result }
{
    out[0] = b'0' + ((x / 10) as u8);
    out[1] = b'0' + ((x % 10) as u8);
    2
}

// Writes the four digits of a number below 10,000, leading zeros included, and answers four.
fn put_four_digits(out: &mut [u8], x: u32) -> usize
    requires { (x < 10000) × (4 ≤ length out.old) }
    ensures { Wrote (four_digits x) out.old out.new result }
{
    let first = put_two_digits(out, x / 100);
    first + put_two_digits(&mut out[first..], x % 100)
}

// Fills the table of all groups of four digits, and answers its length. It pays where many numbers are written.
pub fn fill_table(table: &mut [u8]) -> usize
    requires { 40000 ≤ length table.old }
    ensures { Wrote (table_below 10000) table.old table.new result }
{
    let mut at: usize = 0;
    for x in 0..10000 {
        at += put_four_digits(&mut table[at..], x);
    }
    at
}

// Writes both digits of a number below 100 from the table, and answers two. Both are read before one is written: they are copied
// together.
fn write_pair(out: &mut [u8], x: u32, table: &[u8]) -> usize
    requires { (table.now ≡ table_below 10000) × (x < 100) × (2 ≤ length out.old) }
    ensures { Wrote (pair_digits x) out.old out.new result }
{
    let i = (x as usize) * 4;
    let tens = table[i + 2];
    let ones = table[i + 3];
    out[0] = tens;
    out[1] = ones;
    2
}

// Writes the three digits of a number from 100 to 999 from the table, in the same way.
fn write_three(out: &mut [u8], x: u32, table: &[u8]) -> usize
    requires { (table.now ≡ table_below 10000) × (100 ≤ x) × (x < 1000) × (3 ≤ length out.old) }
    ensures { Wrote (digits x) out.old out.new result }
{
    let i = (x as usize) * 4;
    let hundreds = table[i + 1];
    let tens = table[i + 2];
    let ones = table[i + 3];
    out[0] = hundreds;
    out[1] = tens;
    out[2] = ones;
    3
}

// Writes the four digits of a number below 10,000 from the table, in the same way.
fn write_four(out: &mut [u8], x: u32, table: &[u8]) -> usize
    requires { (table.now ≡ table_below 10000) × (x < 10000) × (4 ≤ length out.old) }
    ensures { Wrote (four_digits x) out.old out.new result }
{
    let i = (x as usize) * 4;
    let thousands = table[i];
    let hundreds = table[i + 1];
    let tens = table[i + 2];
    let ones = table[i + 3];
    out[0] = thousands;
    out[1] = hundreds;
    out[2] = tens;
    out[3] = ones;
    4
}

// Writes the four digits and a space, and answers five.
fn write_four_spaced(out: &mut [u8], x: u32, table: &[u8]) -> usize
    requires { (table.now ≡ table_below 10000) × (x < 10000) × (5 ≤ length out.old) }
    ensures { Wrote (four_digits x ++ space ∷ []) out.old out.new result }
{
    let first = write_four(out, x, table);
    first + write_byte(&mut out[first..], b' ')
}

// Writes the digits of a number below 1,000, and answers how many they are.
fn write_leading(out: &mut [u8], x: u32, table: &[u8]) -> usize
    requires { (table.now ≡ table_below 10000) × (x < 1000) × (length (digits x) ≤ length out.old) }
    ensures { Wrote (digits x) out.old out.new result }
{
    if x < 10 {
        out[0] = b'0' + (x as u8);
        return 1;
    }
    if x < 100 {
        return write_pair(out, x, table);
    }
    write_three(out, x, table)
}

// Writes the digits of a number below 10,000 and a space. Few numbers are below 1,000: these take the slow way.
fn write_short_spaced(out: &mut [u8], x: u32, table: &[u8]) -> usize
    requires { (table.now ≡ table_below 10000) × (x < 10000) × (length (digits x ++ space ∷ []) ≤ length out.old) }
    ensures { Wrote (digits x ++ space ∷ []) out.old out.new result }
{
    if x < 1000 {
        return write_ended(out, x, b' ');
    }
    write_four_spaced(out, x, table)
}

// Writes the digits of a number of five digits or more, below 1,500,000, and a space.
fn write_long_spaced(out: &mut [u8], x: u32, table: &[u8]) -> usize
    requires { (table.now ≡ table_below 10000) × (10000 ≤ x) × (x < 1500000) × (length (digits x ++ space ∷ []) ≤ length out.old) }
    ensures { Wrote (digits x ++ space ∷ []) out.old out.new result }
{
    let high = ten_thousands(x);
    let first = write_leading(out, high, table);
    first + write_four_spaced(&mut out[first..], x - high * 10000, table)
}

// Writes a number's digits, one at a time, and a byte behind them.
pub fn write_ended(out: &mut [u8], x: u32, byte: u8) -> usize
    requires { length (digits x ++ byte ∷ []) ≤ length out.old }
    ensures { Wrote (digits x ++ byte ∷ []) out.old out.new result }
{
    let count = put_digits(out, x);
    count + write_byte(&mut out[count..], byte)
}

// Writes a number's digits and a space by the table. Every variable is below 1,500,000: a greater number takes the slow way. Five
// digits, six and seven make the same call, each in its own branch, where the compiler knows the place of every byte.
fn write_by_table(out: &mut [u8], x: u32, table: &[u8]) -> usize
    requires { (table.now ≡ table_below 10000) × (length (digits x ++ space ∷ []) ≤ length out.old) }
    ensures { Wrote (digits x ++ space ∷ []) out.old out.new result }
{
    if x < 100000 {
        if x < 10000 {
            return write_short_spaced(out, x, table);
        }
        return write_long_spaced(out, x, table);
    }
    if x < 1000000 {
        return write_long_spaced(out, x, table);
    }
    if x < 1500000 {
        return write_long_spaced(out, x, table);
    }
    write_ended(out, x, b' ')
}

// Writes a number's digits and a space, by the table if there is one.
fn write_spaced(out: &mut [u8], x: u32, table: &[u8]) -> usize
    requires { TableOrNone table.now × (length (digits x ++ space ∷ []) ≤ length out.old) }
    ensures { Wrote (digits x ++ space ∷ []) out.old out.new result }
{
    if table.len() < 40000 {
        return write_ended(out, x, b' ');
    }
    write_by_table(out, x, table)
}

// A signed number taken apart: how many bytes its sign takes, and the number without it.
#[derive(Clone, Copy)]
pub struct Parts {
    pub sign: usize,
    pub value: u32,
}

// The parts of a signed number.
pub fn parts_of(z: i32) -> Parts
    ensures { result ≡ parts_of z }
{
    Parts {
        sign: usize::from(z < 0),
        value: z.unsigned_abs(),
    }
}

// Writes a signed number from place `at` on, with a minus only below zero, and a space, and answers where it ends. The minus is always
// written: where there is none, the first digit stands over it. Each place is counted from the start, so that a sum is made once.
pub fn write_signed_spaced(out: &mut [u8], at: usize, z: i32, table: &[u8]) -> usize
    requires { TableOrNone table.now × (at + length (signed_digits z ++ space ∷ []) ≤ length out.old) }
    ensures { Extends (signed_digits z ++ space ∷ []) at out.old out.new result }
{
    let parts = parts_of(z);
    let sign = parts.sign;
    let first = at + sign;
    out[at] = b'-';
    first + write_spaced(&mut out[first..], parts.value, table)
}
