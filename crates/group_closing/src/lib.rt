// The clauses of the closing of frame i at a port (RULES G11 to G13, G25 and G33): a read of a word that no earlier frame wrote is the
// start word where one is given, the word of the frame before is held where nothing is read, and a read has some source.
#![tactic(auto)]

ghost use Rattle.std.specs.Prelude.{◌+◌, ◌*◌, ◌≤◌, ◌<◌, ◌≡◌, false, cond, ◌||◌, [], ◌∷◌, eqb, length};
ghost use Rattle.model.specs.Bits.{bit};
ghost use Rattle.model.specs.Netlist.{start_of};
ghost use Rattle.model.specs.Gather.{gather};
ghost use Rattle.model.specs.Clauses.{known, same_if_clauses, initial_read_clauses, initial_reads, held_clauses, held_reads, selected_of, some_source, closing_clauses};
ghost use Rattle.model.specs.Variables.{wire_at};
ghost use Rattle.model.specs.Numbers.{is_true, kept, written};
ghost use Rattle.model.specs.Counts.{where_given};
ghost use Rattle.literals.specs.Lit.{literal_of, IsTerm, HasNumber};
ghost use Rattle.model.specs.Wrote.{Wrote};
ghost use Rattle.group_closing.specs.OfClosing.{of_closing, ClosingFits};

use clause_variables::Port;
use literals::{Term, Wire};
use netlist::Netlist;

// The two clauses of data bit t: where Z is true, the read bit `rd` is the start bit.
fn put_initial_bit(
    out: &mut [i32],
    none_since: Term,
    reading: u32,
    rd: Wire,
    word: u32,
    t: u32,
) -> usize
    requires { IsTerm none_since × HasNumber reading rd.0 × (1 ≤ rd.0) × (t < 32) × (8 ≤ length out.old) }
    ensures { Wrote (written (same_if_clauses (literal_of none_since) (wire_at reading rd.0) (known (bit word t))))
        out.old out.new result × (result ≤ 8) }
{
    clause_tseitin::put_same_if(out, none_since, rd.in_frame(reading), Term::bit(word, t))
}

// The clauses of each data bit, in bit order.
#[tactic(auto, unfolding(netlist::specs::NetOf::net_of, clause_variables::specs::PortOf::port_of))]
fn put_initial_reads(out: &mut [i32], net: Netlist, port: Port, i: u32) -> usize
    requires { ClosingFits net port i × (net.n * 8 ≤ length out.old) }
    ensures { Wrote (written (gather net.n (initial_read_clauses net.initial_word (of_closing net port i))))
        out.old out.new result × (result ≤ net.n * 8) }
{
    let none_since = clause_variables::none_since(net, port, 0, i);
    let reading = clause_variables::frame_base(net, i);
    let first = netlist::first_read_wire(net);
    let read = port.first_read;
    let word = net.initial_word;
    let mut at = 0;
    for t in 0..net.n {
        at += put_initial_bit(
            &mut out[at..],
            none_since,
            reading,
            first.offset(read + t),
            word,
            t,
        );
    }
    at
}

// The clauses of the start word: an unknown start has none.
fn put_initial(out: &mut [i32], net: Netlist, port: Port, i: u32) -> usize
    requires { ClosingFits net port i
        × (where_given (start_of net.initial_word net.unknown_start) (8 * net.n) ≤ length out.old) }
    ensures { Wrote (written (initial_reads net.n (start_of net.initial_word net.unknown_start) (of_closing net port i)))
        out.old out.new result
        × (result ≤ where_given (start_of net.initial_word net.unknown_start) (8 * net.n)) }
{
    if net.unknown_start == 0 {
        return put_initial_reads(out, net, port, i);
    }
    0
}

// The two clauses of data bit `rd`: where RE is false, it is as in the frame before.
fn put_held_bit(out: &mut [i32], idle: Term, reading: u32, before: u32, rd: Wire) -> usize
    requires { IsTerm idle × HasNumber reading rd.0 × HasNumber before rd.0 × (1 ≤ rd.0) × (8 ≤ length out.old) }
    ensures { Wrote (written (same_if_clauses (literal_of idle) (wire_at reading rd.0) (wire_at before rd.0)))
        out.old out.new result × (result ≤ 8) }
{
    clause_tseitin::put_same_if(out, idle, rd.in_frame(reading), rd.in_frame(before))
}

// The clauses of each data bit of a frame above 0, in bit order.
#[tactic(auto, unfolding(netlist::specs::NetOf::net_of, clause_variables::specs::PortOf::port_of))]
fn put_held_reads(out: &mut [i32], net: Netlist, port: Port, i: u32) -> usize
    requires { ClosingFits net port i × (1 ≤ i) × (net.n * 8 ≤ length out.old) }
    ensures { Wrote (written (gather net.n (held_clauses (of_closing net port i))))
        out.old out.new result × (result ≤ net.n * 8) }
{
    let reading = clause_variables::frame_base(net, i);
    let before = clause_variables::frame_base(net, i - 1);
    let idle = port.re.in_frame(reading).negated();
    let first = netlist::first_read_wire(net);
    let read = port.first_read;
    let mut at = 0;
    for t in 0..net.n {
        at += put_held_bit(
            &mut out[at..],
            idle,
            reading,
            before,
            first.offset(read + t),
        );
    }
    at
}

// The clauses of the word held: frame 0 has none.
fn put_held(out: &mut [i32], net: Netlist, port: Port, i: u32) -> usize
    requires { ClosingFits net port i × (cond (eqb i 0) 0 (net.n * 8) ≤ length out.old) }
    ensures { Wrote (written (held_reads net.n i (of_closing net port i))) out.old out.new result
        × (result ≤ cond (eqb i 0) 0 (net.n * 8)) }
{
    if i == 0 {
        return 0;
    }
    put_held_reads(out, net, port, i)
}

// S of each earlier frame, in ascending order.
#[tactic(auto, unfolding(netlist::specs::NetOf::net_of, clause_variables::specs::PortOf::port_of))]
fn put_sources(out: &mut [i32], net: Netlist, port: Port, i: u32) -> usize
    requires { ClosingFits net port i × (i ≤ length out.old) }
    ensures { Wrote (kept (gather i (selected_of (of_closing net port i))))
        out.old out.new result × (result ≤ i) }
{
    let q = clause_variables::pair_base(net, port, 0, i);
    let numbering = clause_variables::numbering(net);
    let stride = numbering.stride;
    let offset = net.m + 4;
    let mut at = 0;
    for j in 0..i {
        let selected = Term::in_pair(q + j * stride, offset);
        at += clause_writer::put_literal(&mut out[at..], selected);
    }
    at
}

// The clause of two literals that are not true, ¬RE and Z, and S of each earlier frame.
fn put_source_clause(
    out: &mut [i32],
    net: Netlist,
    port: Port,
    i: u32,
    idle: Term,
    none_since: Term,
) -> usize
    requires { ClosingFits net port i × IsTerm idle × IsTerm none_since
        × ((is_true (literal_of idle) || is_true (literal_of none_since)) ≡ false) × (i + 3 ≤ length out.old) }
    ensures { Wrote (written ((literal_of idle ∷ literal_of none_since ∷ gather i (selected_of (of_closing net port i))) ∷ []))
        out.old out.new result × (result ≤ i + 3) }
{
    let a = clause_writer::put_literal(out, idle);
    let b = a + clause_writer::put_literal(&mut out[a..], none_since);
    let d = b + put_sources(&mut out[b..], net, port, i);
    d + clause_writer::put_end(&mut out[d..], d)
}

// The clause (¬RE Z S(0,i) .. S(i−1,i)).
fn put_some_source(out: &mut [i32], net: Netlist, port: Port, i: u32) -> usize
    requires { ClosingFits net port i × (i + 3 ≤ length out.old) }
    ensures { Wrote (written (some_source i (of_closing net port i) ∷ [])) out.old out.new result × (result ≤ i + 3) }
{
    let read_enable = port.re.in_frame(clause_variables::frame_base(net, i));
    let idle = read_enable.negated();
    let none_since = clause_variables::none_since(net, port, 0, i);
    if idle.is_true() | none_since.is_true() {
        return 0;
    }
    put_source_clause(out, net, port, i, idle, none_since)
}

// All clauses of the closing.
pub fn put_closing(out: &mut [i32], net: Netlist, port: Port, i: u32) -> usize
    requires { ClosingFits net port i × (where_given (start_of net.initial_word net.unknown_start) (8 * net.n)
        + cond (eqb i 0) 0 (net.n * 8) + i + 3 ≤ length out.old) }
    ensures { Wrote (written (closing_clauses net.n (start_of net.initial_word net.unknown_start) i (of_closing net port i)))
        out.old out.new result
        × (result ≤ where_given (start_of net.initial_word net.unknown_start) (8 * net.n) + cond (eqb i 0) 0 (net.n * 8) + i + 3) }
{
    let a = put_initial(out, net, port, i);
    let b = a + put_held(&mut out[a..], net, port, i);
    b + put_some_source(&mut out[b..], net, port, i)
}
