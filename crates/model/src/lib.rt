// The vocabulary of all other crates: see specs/. The one declared type is what a group call is asked for.
#![tactic(auto)]

// A group of clauses (RULES G3 to G14): the wires of a frame, the pair (j, i) of a writing frame j and a
// reading frame i, the closing of a frame, the property. A pair's and a closing's last number is the read port.
#[derive(Clone, Copy)]
pub enum Group {
    Wires(u32),
    Pair(u32, u32, u32),
    Closing(u32, u32),
    Property,
}
