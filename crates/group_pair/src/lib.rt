// The clauses of a pair (j, i) of a writing frame j and a reading frame i at a port (RULES G6 to G10 and G32): the address
// comparison, the three gates, the data bits, and where the start is unknown the agreement of two reads of it.
#![tactic(auto)]

ghost use Rattle.std.specs.Prelude.{◌+◌, ◌*◌, ◌/◌, ◌≤◌, length};
ghost use Rattle.model.specs.Gather.{gather};
ghost use Rattle.model.specs.Netlist.{start_of};
ghost use Rattle.model.specs.Clauses.{same_if_clauses, same_if_all_clauses, forwarded_clauses, agreed_clauses, agreed_reads, pair_clauses};
ghost use Rattle.model.specs.Variables.{wire_at, code_at};
ghost use Rattle.model.specs.Numbers.{written};
ghost use Rattle.model.specs.Counts.{where_unknown};
ghost use Rattle.literals.specs.Lit.{literal_of, IsTerm, HasNumber};
ghost use Rattle.clause_variables.specs.OfPair.{of_pair, PairFits};
ghost use Rattle.model.specs.Wrote.{Wrote};
ghost use Rattle.group_pair.specs.PairParts.{comparison_clauses, gated_data_clauses};

use clause_variables::Port;
use literals::{Code, Term, Wire};
use netlist::Netlist;

// The two clauses of data bit t: where S is true, the read bit `rd` is the code `wd` of the writing frame.
fn put_forwarded_bit(
    out: &mut [i32],
    selected: Term,
    reading: u32,
    rd: Wire,
    writing: u32,
    wd: Code,
) -> usize
    requires { IsTerm selected × HasNumber reading rd.0 × (1 ≤ rd.0) × HasNumber writing (wd.0 / 2)
        × (8 ≤ length out.old) }
    ensures { Wrote (written (same_if_clauses (literal_of selected) (wire_at reading rd.0) (code_at writing wd.0)))
        out.old out.new result × (result ≤ 8) }
{
    clause_tseitin::put_same_if(out, selected, rd.in_frame(reading), wd.in_frame(writing))
}

// The clauses of each data bit, in bit order.
#[tactic(auto, unfolding(netlist::specs::NetOf::net_of, clause_variables::specs::PortOf::port_of))]
fn put_forwarded(out: &mut [i32], net: Netlist, port: Port, j: u32, i: u32) -> usize
    requires { PairFits net port j i × (net.n * 8 ≤ length out.old) }
    ensures { Wrote (written (gather net.n (forwarded_clauses (of_pair net port j i))))
        out.old out.new result × (result ≤ net.n * 8) }
{
    let selected = clause_variables::selected(net, port, j, i);
    let writing = clause_variables::frame_base(net, j);
    let reading = clause_variables::frame_base(net, i);
    let first = netlist::first_read_wire(net);
    let read = port.first_read;
    let mut at = 0;
    for t in 0..net.n {
        let wd = net.write_data[t as usize];
        at += put_forwarded_bit(
            &mut out[at..],
            selected,
            reading,
            first.offset(read + t),
            writing,
            wd,
        );
    }
    at
}

// The address comparison: its bits, and the clause of all of them.
fn put_comparison(out: &mut [i32], net: Netlist, port: Port, j: u32, i: u32) -> usize
    requires { PairFits net port j i × (17 * net.m + 2 ≤ length out.old) }
    ensures { Wrote (written (comparison_clauses net.m (of_pair net port j i)))
        out.old out.new result × (result ≤ 17 * net.m + 2) }
{
    let a = group_pair_address::put_address_bits(out, net, port, j, i);
    a + group_pair_address::put_all_bits(&mut out[a..], net, port, j, i)
}

// The gates, and the data bits where S is true.
fn put_gated_data(out: &mut [i32], net: Netlist, port: Port, j: u32, i: u32) -> usize
    requires { PairFits net port j i × (8 * net.n + 30 ≤ length out.old) }
    ensures { Wrote (written (gated_data_clauses net.n (of_pair net port j i)))
        out.old out.new result × (result ≤ 8 * net.n + 30) }
{
    let a = group_pair_select::put_select(out, net, port, j, i);
    a + put_forwarded(&mut out[a..], net, port, j, i)
}

// The two clauses of data bit `rd`: where E, Zj and Zi are true, it is as in the earlier frame.
fn put_agreed_bit(
    out: &mut [i32],
    address_equal: Term,
    earlier: Term,
    later: Term,
    reading: u32,
    before: u32,
    rd: Wire,
) -> usize
    requires { IsTerm address_equal × IsTerm earlier × IsTerm later × HasNumber reading rd.0 × HasNumber before rd.0 × (1 ≤ rd.0)
        × (12 ≤ length out.old) }
    ensures { Wrote (written (same_if_all_clauses (literal_of address_equal) (literal_of earlier) (literal_of later)
        (wire_at reading rd.0) (wire_at before rd.0))) out.old out.new result × (result ≤ 12) }
{
    let is = rd.in_frame(reading);
    let was = rd.in_frame(before);
    clause_tseitin::put_same_if_all(out, address_equal, earlier, later, is, was)
}

// The clauses of each data bit where the start is unknown, in bit order.
#[tactic(auto, unfolding(netlist::specs::NetOf::net_of, clause_variables::specs::PortOf::port_of))]
fn put_agreed_reads(out: &mut [i32], net: Netlist, port: Port, j: u32, i: u32) -> usize
    requires { PairFits net port j i × (net.n * 12 ≤ length out.old) }
    ensures { Wrote (written (gather net.n (agreed_clauses (of_pair net port j i))))
        out.old out.new result × (result ≤ net.n * 12) }
{
    let q = clause_variables::pair_base(net, port, j, i);
    let address_equal = Term::in_pair(q, 1);
    let earlier = clause_variables::none_since(net, port, 0, j);
    let later = clause_variables::none_since(net, port, 0, i);
    let before = clause_variables::frame_base(net, j);
    let reading = clause_variables::frame_base(net, i);
    let first = netlist::first_read_wire(net);
    let read = port.first_read;
    let mut at = 0;
    for t in 0..net.n {
        at += put_agreed_bit(
            &mut out[at..],
            address_equal,
            earlier,
            later,
            reading,
            before,
            first.offset(read + t),
        );
    }
    at
}

// The clauses by which two reads of the start agree: a given word needs none.
fn put_agreed(out: &mut [i32], net: Netlist, port: Port, j: u32, i: u32) -> usize
    requires { PairFits net port j i
        × (where_unknown (start_of net.initial_word net.unknown_start) (12 * net.n) ≤ length out.old) }
    ensures { Wrote (written (agreed_reads net.n (start_of net.initial_word net.unknown_start) (of_pair net port j i)))
        out.old out.new result
        × (result ≤ where_unknown (start_of net.initial_word net.unknown_start) (12 * net.n)) }
{
    if net.unknown_start == 0 {
        return 0;
    }
    put_agreed_reads(out, net, port, j, i)
}

// All clauses of the pair.
pub fn put_pair(out: &mut [i32], net: Netlist, port: Port, j: u32, i: u32) -> usize
    requires { PairFits net port j i × (17 * net.m + 8 * net.n + 32
        + where_unknown (start_of net.initial_word net.unknown_start) (12 * net.n) ≤ length out.old) }
    ensures { Wrote (written (pair_clauses net.m net.n (start_of net.initial_word net.unknown_start) (of_pair net port j i)))
        out.old out.new result
        × (result ≤ 17 * net.m + 8 * net.n + 32 + where_unknown (start_of net.initial_word net.unknown_start) (12 * net.n)) }
{
    let a = put_comparison(out, net, port, j, i);
    let b = a + put_gated_data(&mut out[a..], net, port, j, i);
    b + put_agreed(&mut out[b..], net, port, j, i)
}
