// The library for C and Rust: each public call under its plain name (include/marrubigai.h).
#![tactic(auto)]

ghost use Rattle.std.specs.Prelude.{◌≡◌, List, ◌∷◌, ◌++◌, length};
ghost use Rattle.model.specs.Acceptance.{PathTheorem};
ghost use Rattle.model.specs.Claim.{EncodingTheorem, StatedTheorem};
ghost use Rattle.model.specs.Trace.{TraceTheorem};
ghost use Rattle.model.specs.Groups.{group_order};
ghost use Rattle.group_order.specs.Next.{first_group};
ghost use Rattle.call_lists.specs.Lent.{net_lent};
ghost use Rattle.call_unpacked.specs.Calls.{group_sent, group_leaves, heading_sent, BoundTheorem};
ghost use Rattle.calls.specs.LentCalls.{HeadingClaim, AcceptedTheorem};
ghost use Rattle.calls.specs.Starred.{Starred};
ghost use Rattle.decimal.specs.Digits.{signed_digits};
ghost use Rattle.dimacs.specs.Text.{header_text, clause_text, OtherNumbers, NumberPrinted, refusal_text};
ghost use Rattle.dimacs.specs.PrintCalls.{print_sent, print_leaves, fill_leaves};
ghost use Rattle.sheet_parse.specs.LineAnswers.{line_answer, line_sent, lines_read_of};
ghost use Rattle.sheet_reader.specs.ReadCall.{read_verdict, read_record, latches_after, gates_after, SheetDelivered};
ghost use Rattle.aiger_lines.specs.Written.{TextAsWritten};
ghost use Rattle.aiger_import.specs.ImportCall.{import_verdict_for, import_record, import_latches, import_gates, TextDelivered};
ghost use Rattle.answer_lines.specs.Written.{AnswerAsWritten};
ghost use Rattle.replay_frame.specs.Replay.{OneRunTheorem, RoomTheorem};
ghost use Rattle.replay_call.specs.Settled.{FaultsSettled};
ghost use Rattle.replay_call.specs.RightAnswer.{RightAnswerTheorem};
ghost use Rattle.replay_answer.specs.ReplayAnswer.{replay_for, memory_for, trace_for};
ghost use Rattle.call_position.specs.Moves.{move_of, move_sent, MoveStands};
ghost use Rattle.call_position.specs.GroupsAt.{group_at_sent, group_at_leaves, ByFrame};
ghost use Rattle.call_source.specs.Sources.{source_sent};
ghost use Rattle.call_position.specs.Literals.{literal_sent, InverseNegated};
ghost use Rattle.netlist.specs.NetOf.{alone};
ghost use Rattle.sheet_writer.specs.WriteCall.{write_sent, write_leaves, SheetWritten};
ghost use Rattle.aiger_export.specs.ExportCall.{export_sent, export_leaves};
ghost use Rattle.aiger_export.specs.Exported.{ExportTheorem};
ghost use Rattle.refutation_depth.specs.Certified.{CertifiedInput};
ghost use Rattle.refutation_depth.specs.Certificate.{certificate_sent, store_after, marks_scratch, KeptBehind};
ghost use Rattle.sheet_one_port.specs.OnePortCall.{one_port_sent, one_port_leaves, OnePortTheorem};
ghost use Rattle.invariant_check.specs.CertifiedForever.{CertifiedForever};
ghost use Rattle.invariant_check.specs.ForeverCall.{forever_sent, forever_store, forever_scratch};
ghost use Rattle.call_replies.specs.Replies.{group_of, order_for, next_numbers, sheet_numbers, header_version};

use call_lists::{GateEntry, LatchEntry};
use call_position::{LiteralReply, Position, PositionReply};
use call_replies::{GroupReply, SheetReply, VersionReply};
use call_unpacked::HeadingReply;
use literals::Code;
use model::Group;
use netlist::Netlist;
use refusals::CountReply;
use refutation_depth::CertificateReply;
use replay_call::ReplayReply;
use sheet_parse::{LineReply, SheetReader};

// The version of include/marrubigai.h that the library is built for.
#[unsafe(no_mangle)]
pub extern "C" fn marrubigai_version() -> VersionReply
    ensures { result ≡ header_version }
{
    call_replies::version()
}

// `calls::write_group`. The kind is 0 for the wires of frame i, 1 for the pair (j, i) of a port, 2 for the closing of frame i of a port, 3 for the
// property.
#[unsafe(no_mangle)]
pub extern "C" fn marrubigai_write_group(
    net: Netlist,
    latches: &[LatchEntry],
    gates: &[GateEntry],
    depth: u32,
    kind: u32,
    j: u32,
    i: u32,
    port: u32,
    out: &mut [i32],
) -> CountReply
    ensures answer { result ≡ group_sent (net_lent net latches.now gates.now) (length latches.now) (length gates.now) depth (group_of kind j i port) (length out.old) }
    ensures borrowed { out.new ≡ group_leaves (net_lent net latches.now gates.now) (length latches.now) (length gates.now) depth (group_of kind j i port) out.old }
{
    call_replies::count_numbers(calls::write_group(
        net,
        latches,
        gates,
        depth,
        call_replies::group_of(kind, j, i, port),
        out,
    ))
}

// `group_order::next_group`: the group that follows one in the order of the whole at this depth with so many ports, which begins with the wires of
// frame 0.
#[unsafe(no_mangle)]
pub extern "C" fn marrubigai_next_group(
    depth: u32,
    ports: u32,
    kind: u32,
    j: u32,
    i: u32,
    port: u32,
) -> GroupReply
    ensures follows { (xs ys : List Group) → order_for ports depth ≡ xs ++ group_of kind j i port ∷ ys → result ≡ next_numbers (first_group ys) }
    ensures absent { ((xs ys : List Group) → order_for ports depth ≡ xs ++ group_of kind j i port ∷ ys → ⊥) → result ≡ next_numbers None }
    ensures begins { first_group (group_order ports depth) ≡ Some (group_of 0 0 0 0) }
{
    if ports == 0 {
        return call_replies::next_numbers(None);
    }
    if 2 < ports {
        return call_replies::next_numbers(None);
    }
    call_replies::next_numbers(group_order::next_group(
        ports,
        depth,
        call_replies::group_of(kind, j, i, port),
    ))
}

// `calls::heading`, with all its promises: a caller may have filled the record by itself.
#[unsafe(no_mangle)]
pub extern "C" fn marrubigai_heading(
    net: Netlist,
    latches: &[LatchEntry],
    gates: &[GateEntry],
    depth: u32,
) -> HeadingReply
    ensures answer { result ≡ heading_sent (net_lent net latches.now gates.now) (length latches.now) (length gates.now) depth }
    ensures claim { HeadingClaim net latches.now gates.now depth }
    ensures paths { PathTheorem }
    ensures accepted { AcceptedTheorem }
    ensures theorems { EncodingTheorem × StatedTheorem × TraceTheorem × BoundTheorem }
    ensures starred { Starred }
{
    call_replies::heading_numbers(calls::heading(net, latches, gates, depth))
}

// `sheet_reader::read`.
#[unsafe(no_mangle)]
pub extern "C" fn marrubigai_read(
    file: &[u8],
    latches: &mut [LatchEntry],
    gates: &mut [GateEntry],
) -> SheetReply
    ensures reply { result ≡ sheet_numbers (read_verdict file.now latches.old gates.old) (read_record file.now latches.old gates.old) }
    ensures latches { latches.new ≡ latches_after file.now latches.old gates.old }
    ensures gates { gates.new ≡ gates_after file.now latches.old gates.old }
    ensures accepted { result.number ≡ 0 → SheetDelivered file.now result.net latches.new gates.new }
{
    call_replies::sheet_numbers(sheet_reader::read(file, latches, gates))
}

// Imports an ASCII AIGER text for a memory of m address bits, n data bits and this start word, or an unknown start where `unknown` is 1, and with a
// second port where `second_port` is 1: its record, and its latches and gates into the lent lists. Nothing lent is written before the last test has
// passed: a refusal's record is all zeros, so nothing of it is delivered.
#[unsafe(no_mangle)]
pub extern "C" fn marrubigai_import(
    text: &[u8],
    m: u32,
    n: u32,
    word: u32,
    unknown: u32,
    second_port: u32,
    latches: &mut [LatchEntry],
    gates: &mut [GateEntry],
) -> SheetReply
    ensures reply { result ≡ sheet_numbers (import_verdict_for text.now m n word unknown second_port latches.old gates.old) (import_record text.now m n word unknown second_port latches.old gates.old) }
    ensures latches { latches.new ≡ import_latches text.now m n word unknown second_port latches.old gates.old }
    ensures gates { gates.new ≡ import_gates text.now m n word unknown second_port latches.old gates.old }
    ensures accepted { result.number ≡ 0 → TextDelivered text.now m n word unknown second_port result.net latches.new gates.new }
    ensures written { TextAsWritten }
{
    let mut latch_codes = sheet_tests::no_codes();
    let mut gate_codes = sheet_tests::no_codes();
    let sheet = aiger_import::import_text(
        text,
        m,
        n,
        word,
        unknown,
        second_port,
        latches.len(),
        gates.len(),
        &mut latch_codes,
        &mut gate_codes,
    );
    call_lists::deliver::deliver_latches(&latch_codes, sheet.net.latches, latches);
    call_lists::deliver::deliver_gates(&gate_codes, sheet.net.gates, gates);
    call_replies::sheet_numbers(sheet)
}

// `SheetReader::next_line`, of the reader that has read so many lines of the file.
#[unsafe(no_mangle)]
pub extern "C" fn marrubigai_next_line(file: &[u8], line: u32) -> LineReply
    ensures { result ≡ line_sent (line_answer file.now line) (lines_read_of file.now line) }
{
    let next = SheetReader { file, line }.next_line();
    call_replies::line_numbers(next.line, next.reader.line)
}

// `dimacs::put_header`.
#[unsafe(no_mangle)]
pub extern "C" fn marrubigai_put_header(out: &mut [u8], variables: u32, clauses: u32) -> CountReply
    ensures answer { result ≡ print_sent (header_text variables clauses) (length out.old) }
    ensures borrowed { out.new ≡ print_leaves (header_text variables clauses) out.old }
{
    call_replies::count_numbers(dimacs::put_header(out, variables, clauses))
}

// `dimacs::put_clauses`.
#[unsafe(no_mangle)]
pub extern "C" fn marrubigai_put_clauses(out: &mut [u8], numbers: &[i32]) -> CountReply
    ensures answer { result ≡ print_sent (clause_text numbers.now) (length out.old) }
    ensures borrowed { out.new ≡ print_leaves (clause_text numbers.now) out.old }
    ensures others { OtherNumbers }
{
    call_replies::count_numbers(dimacs::put_clauses(out, numbers))
}

// `dimacs::put_refusal`.
#[unsafe(no_mangle)]
pub extern "C" fn marrubigai_put_refusal(out: &mut [u8], number: u32, place: u32) -> CountReply
    ensures answer { result ≡ print_sent (refusal_text number place) (length out.old) }
    ensures borrowed { out.new ≡ print_leaves (refusal_text number place) out.old }
{
    call_replies::count_numbers(dimacs::put_refusal(out, number, place))
}

// `dimacs::put_number`.
#[unsafe(no_mangle)]
pub extern "C" fn marrubigai_put_number(out: &mut [u8], number: i32) -> CountReply
    ensures answer { result ≡ print_sent (signed_digits number) (length out.old) }
    ensures borrowed { out.new ≡ fill_leaves (signed_digits number) out.old }
    ensures printed { NumberPrinted }
{
    call_replies::count_numbers(dimacs::put_number(out, number))
}

// `replay_answer::replay`, of lent lists.
#[unsafe(no_mangle)]
pub extern "C" fn marrubigai_replay(
    net: Netlist,
    latches: &[LatchEntry],
    gates: &[GateEntry],
    depth: u32,
    answer: &[u8],
    memory: &mut [u32],
    trace: &mut [u8],
) -> ReplayReply
    ensures answer { result ≡ replay_for (net_lent net latches.now gates.now) (length latches.now) (length gates.now) depth answer.now (length memory.old) (length trace.old) }
    ensures memory { memory.new ≡ memory_for (net_lent net latches.now gates.now) (length latches.now) (length gates.now) depth answer.now memory.old (length trace.old) }
    ensures trace { trace.new ≡ trace_for (net_lent net latches.now gates.now) (length latches.now) (length gates.now) depth answer.now (length memory.old) trace.old }
    ensures settled { FaultsSettled × OneRunTheorem × RoomTheorem × RightAnswerTheorem }
    ensures written { AnswerAsWritten }
{
    let mut latch_codes = [0; 1200];
    call_lists::unpack::unpack_latches(&mut latch_codes, latches);
    let mut gate_codes = [0; 1200];
    call_lists::unpack::unpack_gates(&mut gate_codes, gates);
    replay_answer::replay(
        net,
        &latch_codes,
        latches.len(),
        &gate_codes,
        gates.len(),
        depth,
        answer,
        memory,
        trace,
    )
}

// `call_position::move_position`, of lent lists: a running record started at frame 0 of its depth (0), moved one frame on (1), or taken back to
// frame 0 (2).
#[unsafe(no_mangle)]
pub extern "C" fn marrubigai_move(
    net: Netlist,
    latches: &[LatchEntry],
    gates: &[GateEntry],
    position: Position,
    way: u32,
) -> PositionReply
    ensures answer { result ≡ move_sent (net_lent net latches.now gates.now) (length latches.now) (length gates.now) position (move_of way) }
    ensures stands { MoveStands (net_lent net latches.now gates.now) result }
{
    let mut latch_codes = [0; 1200];
    call_lists::unpack::unpack_latches(&mut latch_codes, latches);
    let mut gate_codes = [0; 1200];
    call_lists::unpack::unpack_gates(&mut gate_codes, gates);
    call_position::move_position(
        net,
        &latch_codes,
        latches.len(),
        &gate_codes,
        gates.len(),
        position,
        way,
    )
}

// `call_position::write_group_at`, of lent lists. The kinds are those of `marrubigai_write_group`; the frame is the record's.
#[unsafe(no_mangle)]
pub extern "C" fn marrubigai_write_group_at(
    net: Netlist,
    latches: &[LatchEntry],
    gates: &[GateEntry],
    position: Position,
    kind: u32,
    j: u32,
    port: u32,
    out: &mut [i32],
) -> CountReply
    ensures answer { result ≡ group_at_sent (net_lent net latches.now gates.now) (length latches.now) (length gates.now) position (group_of kind j position.frame port) (length out.old) }
    ensures borrowed { out.new ≡ group_at_leaves (net_lent net latches.now gates.now) (length latches.now) (length gates.now) position (group_of kind j position.frame port) out.old }
    ensures by_frame { ByFrame (net_lent net latches.now gates.now) (length latches.now) (length gates.now) position (group_of kind j position.frame port) out.old }
{
    let mut latch_codes = [0; 1200];
    call_lists::unpack::unpack_latches(&mut latch_codes, latches);
    let mut gate_codes = [0; 1200];
    call_lists::unpack::unpack_gates(&mut gate_codes, gates);
    call_position::write_group_at(
        net,
        &latch_codes,
        latches.len(),
        &gate_codes,
        gates.len(),
        position,
        kind,
        j,
        port,
        out,
    )
}

// `call_position::literal_at`.
#[unsafe(no_mangle)]
pub extern "C" fn marrubigai_literal_at(
    net: Netlist,
    position: Position,
    code: Code,
) -> LiteralReply
    ensures answer { result ≡ literal_sent (alone net) position code.0 }
    ensures inverse { InverseNegated (alone net) position code.0 result }
{
    call_position::literal_at(net, position, code)
}

// `call_source::source_literal`, of a group by its numbers.
#[unsafe(no_mangle)]
pub extern "C" fn marrubigai_source_literal(
    net: Netlist,
    depth: u32,
    kind: u32,
    j: u32,
    i: u32,
    port: u32,
) -> LiteralReply
    ensures { result ≡ source_sent (alone net) depth (group_of kind j i port) }
{
    call_source::source_literal(net, depth, call_replies::group_of(kind, j, i, port))
}

// `sheet_writer::write_sheet`, of lent lists.
#[unsafe(no_mangle)]
pub extern "C" fn marrubigai_write_sheet(
    net: Netlist,
    latches: &[LatchEntry],
    gates: &[GateEntry],
    out: &mut [u8],
) -> CountReply
    ensures answer { result ≡ write_sent (net_lent net latches.now gates.now) (length latches.now) (length gates.now) (length out.old) }
    ensures borrowed { out.new ≡ write_leaves (net_lent net latches.now gates.now) (length latches.now) (length gates.now) out.old }
    ensures written { SheetWritten }
{
    let mut latch_codes = [0; 1200];
    call_lists::unpack::unpack_latches(&mut latch_codes, latches);
    let mut gate_codes = [0; 1200];
    call_lists::unpack::unpack_gates(&mut gate_codes, gates);
    call_replies::count_numbers(sheet_writer::write_sheet(
        net,
        &latch_codes,
        latches.len(),
        &gate_codes,
        gates.len(),
        out,
    ))
}

// `aiger_export::export_binary`, of lent lists.
#[unsafe(no_mangle)]
pub extern "C" fn marrubigai_export(
    net: Netlist,
    latches: &[LatchEntry],
    gates: &[GateEntry],
    out: &mut [u8],
) -> CountReply
    ensures answer { result ≡ export_sent (net_lent net latches.now gates.now) (length latches.now) (length gates.now) (length out.old) }
    ensures borrowed { out.new ≡ export_leaves (net_lent net latches.now gates.now) (length latches.now) (length gates.now) out.old }
    ensures exported { ExportTheorem }
{
    let mut latch_codes = [0; 1200];
    call_lists::unpack::unpack_latches(&mut latch_codes, latches);
    let mut gate_codes = [0; 1200];
    call_lists::unpack::unpack_gates(&mut gate_codes, gates);
    call_replies::count_numbers(aiger_export::export_binary(
        net,
        &latch_codes,
        latches.len(),
        &gate_codes,
        gates.len(),
        out,
    ))
}

// `refutation_depth::certify`.
#[unsafe(no_mangle)]
pub extern "C" fn marrubigai_certify(
    input: &[u8],
    lemmas: &[i32],
    hints: &[u32],
    store: &mut [i32],
    marks: &mut [u32],
) -> CertificateReply
    ensures answer { result ≡ certificate_sent input.now lemmas.now hints.now (length store.old) (length marks.old) }
    ensures certified { result.certified ≡ 1 → CertifiedInput input.now }
    ensures store { store.new ≡ store_after input.now lemmas.now store.old (length marks.old) }
    ensures marks { KeptBehind (marks_scratch input.now (length lemmas.now) (length store.old) (length marks.old)) marks.old marks.new }
{
    refutation_depth::certify(input, lemmas, hints, store, marks)
}

// `sheet_one_port::convert`.
#[unsafe(no_mangle)]
pub extern "C" fn marrubigai_one_port(file: &[u8], out: &mut [u8]) -> CountReply
    ensures answer { result ≡ one_port_sent file.now (length out.old) }
    ensures borrowed { out.new ≡ one_port_leaves file.now out.old }
    ensures converted { OnePortTheorem }
{
    call_replies::count_numbers(sheet_one_port::convert(file, out))
}

// `invariant_check::certify_forever`.
#[unsafe(no_mangle)]
pub extern "C" fn marrubigai_certify_forever(
    file: &[u8],
    invariant: &[i32],
    requests: &[u32],
    lemmas: &[i32],
    hints: &[u32],
    store: &mut [i32],
    marks: &mut [u32],
) -> CertificateReply
    ensures answer { result ≡ forever_sent file.now invariant.now requests.now lemmas.now hints.now (length store.old) (length marks.old) }
    ensures certified { result.certified ≡ 1 → CertifiedForever file.now }
    ensures store { store.new ≡ forever_store file.now invariant.now requests.now lemmas.now store.old }
    ensures marks { KeptBehind (forever_scratch file.now invariant.now (length requests.now) (length lemmas.now) (length store.old) (length marks.old)) marks.old marks.new }
{
    invariant_check::certify_forever(file, invariant, requests, lemmas, hints, store, marks)
}
