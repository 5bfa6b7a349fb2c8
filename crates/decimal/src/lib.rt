// Numbers as decimal text and back (RULES S2): one definition, `digits`, says what is written and what is read.
#![tactic(auto)]

ghost use Rattle.std.specs.Prelude.{◌≡◌, ◌≤◌, length, replicate};
ghost use Rattle.decimal.specs.Digits.{digits, space, field};
ghost use Rattle.decimal.specs.WroteAtEnd.{WroteAtEnd};
ghost use Rattle.decimal.specs.TextValue.{number_in};
ghost use Rattle.decimal.specs.SignedValue.{clause_number_in};
ghost use Rattle.model.specs.Wrote.{Wrote};

// The number that the whole text stands for, at most 4,294,967,295. Ten digits are the most, so the value fits.
pub fn read_number(text: &[u8]) -> Option<u32>
    ensures { result ≡ number_in text.now }
{
    if text.len() == 0 || 10 < text.len() {
        return None;
    }
    if text[0] == b'0' && 1 < text.len() {
        return None;
    }
    let mut value: u64 = 0;
    for &c in text {
        if c < b'0' || b'9' < c {
            return None;
        }
        value = value * 10 + ((c - b'0') as u64);
    }
    if 4294967295 < value {
        return None;
    }
    Some(value as u32)
}

// The clause number that the whole text stands for: digits, or those of a number above 0 behind one minus. The 0 that ends a clause is
// one here.
pub fn read_clause_number(text: &[u8]) -> Option<i32>
    ensures { result ≡ clause_number_in text.now }
{
    if text.len() == 0 {
        return None;
    }
    if text[0] == b'-' {
        let x = read_number(&text[1..])?;
        if x == 0 || 2147483647 < x {
            return None;
        }
        let z = x as i32;
        return Some(-z);
    }
    let x = read_number(text)?;
    if 2147483647 < x {
        return None;
    }
    Some(x as i32)
}

// How many digits a number has.
pub fn digit_count(x: u32) -> usize
    ensures { result ≡ length (digits x) }
{
    let mut count: usize = 1;
    let mut power: u64 = 10;
    while power <= x as u64 {
        power = power * 10;
        count += 1;
    }
    count
}

// Fills a number's digits from the right into the end of a slice, in one pass, and answers how many they are.
pub fn fill_digits(out: &mut [u8], x: u32) -> usize
    requires { length (digits x) ≤ length out.old }
    ensures { WroteAtEnd (digits x) out.old out.new result }
{
    let mut at = out.len();
    let mut rest = x;
    while 10 <= rest {
        at -= 1;
        out[at] = b'0' + ((rest % 10) as u8);
        rest = rest / 10;
    }
    at -= 1;
    out[at] = b'0' + (rest as u8);
    out.len() - at
}

// Writes a number's digits, and answers how many they are.
pub fn put_digits(out: &mut [u8], x: u32) -> usize
    requires { length (digits x) ≤ length out.old }
    ensures { Wrote (digits x) out.old out.new result }
{
    let count = digit_count(x);
    fill_digits(&mut out[..count], x)
}

// Fills the first bytes of a slice with spaces.
fn put_spaces(out: &mut [u8], count: usize)
    requires { count ≤ length out.old }
    ensures { Wrote (replicate count space) out.old out.new count }
{
    out[..count].fill(b' ');
}

// Writes a number in ten columns, right-justified behind spaces, and answers ten.
pub fn put_field(out: &mut [u8], x: u32) -> usize
    requires { 10 ≤ length out.old }
    ensures { Wrote (field x) out.old out.new result }
{
    put_spaces(out, 10);
    let _ = fill_digits(&mut out[..10], x);
    10
}
