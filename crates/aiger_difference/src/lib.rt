// The differences by which a binary AIGER file says a gate's codes: their bytes, and how many they are.
#![tactic(auto)]

ghost use Rattle.std.specs.Prelude.{◌≡◌, ◌≤◌, length};
ghost use Rattle.model.specs.Wrote.{Wrote};
ghost use Rattle.aiger_difference.specs.Difference.{difference_bytes};

// How many bytes a difference takes, from its leading zeros: one for every seven bits begun, and one for zero.
pub fn difference_length(x: u32) -> usize
    ensures { result ≡ length (difference_bytes x) }
{
    if x == 0 {
        return 1;
    }
    ((38 - u32::leading_zeros(x)) / 7) as usize
}

// Writes a difference's bytes, and answers how many they are.
pub fn put_difference(out: &mut [u8], x: u32) -> usize
    requires { length (difference_bytes x) ≤ length out.old }
    ensures { Wrote (difference_bytes x) out.old out.new result }
{
    let last = difference_length(x) - 1;
    let mut rest = x;
    for i in 0..last {
        out[i] = 128 + ((rest % 128) as u8);
        rest = rest / 128;
    }
    out[last] = rest as u8;
    last + 1
}
