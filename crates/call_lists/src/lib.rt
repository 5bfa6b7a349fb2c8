// The records of the lists that a caller lends (RULES W14 and W16): of two codes for each gate, of next code and
// reset for each latch.
#![tactic(auto)]

use literals::Code;

pub mod deliver;
pub mod unpack;

// A gate of the lent list (RULES W16): its two codes.
#[repr(C)]
#[derive(Clone, Copy)]
pub struct GateEntry {
    pub left: Code,
    pub right: Code,
}

// A latch of the lent list (RULES W14): its next code, and its reset, 0 or 1.
#[repr(C)]
#[derive(Clone, Copy)]
pub struct LatchEntry {
    pub next: Code,
    pub reset: u32,
}
