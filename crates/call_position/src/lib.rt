// A running record (RULES R1 to R9): a depth, a frame of it and the frame's stored base, which the caller keeps and hands in. Its moves,
// the groups of its frame and the literals of its frame.
#![tactic(auto)]

ghost use Rattle.std.specs.Prelude.{◌≡◌, ◌+◌, ◌≤◌, ◌<◌, pos, nat_abs, length};
ghost use Rattle.model.specs.Netlist as M;
ghost use Rattle.model.specs.Acceptance.{SizesFit};
ghost use Rattle.model.specs.Variables.{base};
ghost use Rattle.model.specs.Numbers.{literal_number};
ghost use Rattle.refusals.specs.Verdict.{Passed, refuse};
ghost use Rattle.refusals.specs.Slices.{count_reply};
ghost use Rattle.literals.specs.Lit.{literal_of, IsTerm};
ghost use Rattle.netlist.specs.NetOf.{net_of, alone};
ghost use Rattle.call_replies.specs.Replies.{group_of};
ghost use Rattle.call_position.specs.Positions.{test_base, test_frame, at_frame};
ghost use Rattle.call_position.specs.Moves.{move_of, test_move, moved_to, kept_at, with_position, move_sent};
ghost use Rattle.call_position.specs.GroupsAt.{group_at_sent, group_at_leaves};
ghost use Rattle.call_position.specs.Literals.{numbering_verdict, literal_verdict, with_literal, literal_sent, InverseNegated};

use literals::{Code, Term};
use model::Group;
use netlist::{Netlist, UnpackedList};
use refusals::{CountReply, Refusal, Refused, Verdict, Written};

// A running record: where a caller that goes frame by frame stands.
#[repr(C)]
#[derive(Clone, Copy)]
pub struct Position {
    pub depth: u32,
    pub frame: u32,
    pub base: u32,
}

// A move (RULES R9). A start looks at the record's depth alone.
#[derive(Clone, Copy)]
pub enum Move {
    Begin,
    On,
    Back,
    NoMove,
}

// What is sent back of a move: number and place (0 where it is not refused), and the record.
#[repr(C)]
#[derive(Clone, Copy)]
pub struct PositionReply {
    pub number: u32,
    pub place: u32,
    pub position: Position,
}

// What is sent back of a code's literal: number and place (0 where it is not refused), and the literal.
#[repr(C)]
#[derive(Clone, Copy)]
pub struct LiteralReply {
    pub number: u32,
    pub place: u32,
    pub literal: i32,
}

// The move that a number stands for.
fn move_of(way: u32) -> Move
    ensures { result ≡ move_of way }
{
    match way {
        0 => Move::Begin,
        1 => Move::On,
        2 => Move::Back,
        _ => Move::NoMove,
    }
}

// Refusal 16.
fn test_base(net: Netlist, position: Position) -> Verdict
    requires { SizesFit (alone net) × (position.frame ≤ 256) }
    ensures { result ≡ test_base (alone net) position }
{
    if position.base == clause_variables::frame_base(net, position.frame) {
        return Ok(());
    }
    Err(Refused(Refusal::WrongBase, 0))
}

// Refusal 8 of the record's frame, then 16.
fn test_frame(net: Netlist, position: Position) -> Verdict
    requires { SizesFit (alone net) × (position.depth ≤ 255) }
    ensures { result ≡ test_frame (alone net) position position.frame }
{
    if position.depth < position.frame {
        return Err(Refused(Refusal::NoSuchGroup, 0));
    }
    test_base(net, position)
}

// Refusal 8 of the frame behind it, then 16.
fn test_next(net: Netlist, position: Position) -> Verdict
    requires { SizesFit (alone net) × (position.depth ≤ 255) }
    ensures { result ≡ test_frame (alone net) position (position.frame + 1) }
{
    if position.depth <= position.frame {
        return Err(Refused(Refusal::NoSuchGroup, 0));
    }
    test_base(net, position)
}

// The tests of a move behind that of the depth.
fn test_move(net: Netlist, position: Position, way: Move) -> Verdict
    requires { SizesFit (alone net) × (position.depth ≤ 255) }
    ensures { result ≡ test_move (alone net) position way }
{
    match way {
        Move::Begin => Ok(()),
        Move::On => test_next(net, position),
        Move::Back => test_frame(net, position),
        Move::NoMove => Err(Refused(Refusal::NoSuchGroup, 0)),
    }
}

// The record at frame 0.
fn first(depth: u32) -> Position
    ensures { (c : M.Netlist) → result ≡ at_frame c depth 0 }
{
    Position {
        depth,
        frame: 0,
        base: 1,
    }
}

// The record one frame on: the variables of the frame's wires and pairs are added to the stored base.
fn next(net: Netlist, position: Position) -> Position
    requires { SizesFit (alone net) × (position.frame ≤ 254) × (position.base ≡ base (alone net) position.frame) }
    ensures { result ≡ at_frame (alone net) position.depth (position.frame + 1) }
{
    let numbering = clause_variables::numbering(net);
    Position {
        depth: position.depth,
        frame: position.frame + 1,
        base: position.base + numbering.wires + position.frame * numbering.stride,
    }
}

// The record after a move that is not refused.
fn moved(net: Netlist, position: Position, way: Move) -> Position
    requires { SizesFit (alone net) × (position.depth ≤ 255) × (test_move (alone net) position way ≡ Passed) }
    ensures { result ≡ moved_to (alone net) position way }
{
    match way {
        Move::Begin => first(position.depth),
        Move::On => next(net, position),
        Move::Back => first(position.depth),
        Move::NoMove => position,
    }
}

// The record after a refused one: as it was handed in, but zeros of a start.
fn kept(position: Position, way: Move) -> Position
    ensures { result ≡ kept_at position way }
{
    match way {
        Move::Begin => Position {
            depth: 0,
            frame: 0,
            base: 0,
        },
        Move::On => position,
        Move::Back => position,
        Move::NoMove => position,
    }
}

// What a refused move answers.
fn refused_move(refusal: Refusal, place: u32, position: Position, way: Move) -> PositionReply
    ensures { result ≡ with_position (refuse refusal place) position (kept_at position way) }
{
    let number = refusals::number(refusal);
    PositionReply {
        number,
        place,
        position: kept(position, way),
    }
}

// Starts a record at frame 0 of its depth (0), moves it one frame on (1), or takes it back to frame 0 (2).
pub fn move_position(
    net: Netlist,
    latches: &UnpackedList,
    latch_count: usize,
    gates: &UnpackedList,
    gate_count: usize,
    position: Position,
    way: u32,
) -> PositionReply
    ensures { result ≡ move_sent (net_of net latches.now gates.now) latch_count gate_count position (move_of way) }
{
    let way = move_of(way);
    if let Err(Refused(refusal, place)) = call_unpacked::test_depth(
        net,
        latches,
        latch_count,
        gates,
        gate_count,
        position.depth,
    ) {
        return refused_move(refusal, place, position, way);
    }
    if let Err(Refused(refusal, place)) = test_move(net, position, way) {
        return refused_move(refusal, place, position, way);
    }
    PositionReply {
        number: 0,
        place: 0,
        position: moved(net, position, way),
    }
}

// Writes a group of the record's frame.
fn group_at(
    net: Netlist,
    latches: &UnpackedList,
    latch_count: usize,
    gates: &UnpackedList,
    gate_count: usize,
    position: Position,
    group: Group,
    out: &mut [i32],
) -> Written
    ensures answer { count_reply result ≡ group_at_sent (net_of net latches.now gates.now) latch_count gate_count position group (length out.old) }
    ensures borrowed { out.new ≡ group_at_leaves (net_of net latches.now gates.now) latch_count gate_count position group out.old }
{
    call_unpacked::test_group(
        net,
        latches,
        latch_count,
        gates,
        gate_count,
        position.depth,
        group,
    )?;
    test_frame(net, position)?;
    call_unpacked::write_tested(net, latches, gates, position.depth, group, out)
}

// The same of a group by its kind and port, and of a pair by its j: the record has the frame.
pub fn write_group_at(
    net: Netlist,
    latches: &UnpackedList,
    latch_count: usize,
    gates: &UnpackedList,
    gate_count: usize,
    position: Position,
    kind: u32,
    j: u32,
    port: u32,
    out: &mut [i32],
) -> CountReply
    ensures answer { result ≡ group_at_sent (net_of net latches.now gates.now) latch_count gate_count position (group_of kind j position.frame port) (length out.old) }
    ensures borrowed { out.new ≡ group_at_leaves (net_of net latches.now gates.now) latch_count gate_count position (group_of kind j position.frame port) out.old }
{
    call_replies::count_numbers(group_at(
        net,
        latches,
        latch_count,
        gates,
        gate_count,
        position,
        call_replies::group_of(kind, j, position.frame, port),
        out,
    ))
}

// The number of a literal: 1 and -1 are the constants.
fn number_of(term: Term) -> i32
    requires { IsTerm term }
    ensures number { result ≡ literal_number (literal_of term) }
    ensures bounded { nat_abs result < 2147483648 }
{
    match term {
        Term::True => 1,
        Term::False => -1,
        Term::Number(l) => l.0,
    }
}

// What is sent back of a literal.
pub fn answer_literal(term: Term) -> LiteralReply
    requires { IsTerm term }
    ensures { result ≡ with_literal Passed (literal_number (literal_of term)) }
{
    LiteralReply {
        number: 0,
        place: 0,
        literal: number_of(term),
    }
}

// What a refused literal call answers.
pub fn no_literal(refusal: Refusal, place: u32) -> LiteralReply
    ensures { result ≡ with_literal (refuse refusal place) (pos 0) }
{
    LiteralReply {
        number: refusals::number(refusal),
        place,
        literal: 0,
    }
}

// Refusal 4, then 7.
pub fn test_numbering(net: Netlist, depth: u32) -> Verdict
    ensures { result ≡ numbering_verdict (alone net) depth }
{
    netlist_tests::test_sizes(net)?;
    if 255 < depth {
        return Err(Refused(Refusal::Depth, 0));
    }
    Ok(())
}

// The tests of a literal call. It looks at no list, so none is lent.
fn test_literal(net: Netlist, position: Position, code: Code) -> Verdict
    ensures { result ≡ literal_verdict (alone net) position code.0 }
{
    test_numbering(net, position.depth)?;
    test_frame(net, position)?;
    if code.is_above(netlist::last_wire(net)) {
        return Err(Refused(Refusal::CodeOutside, 0));
    }
    Ok(())
}

// The literal of a code in the record's frame.
pub fn literal_at(net: Netlist, position: Position, code: Code) -> LiteralReply
    ensures answer { result ≡ literal_sent (alone net) position code.0 }
    ensures inverse { InverseNegated (alone net) position code.0 result }
{
    if let Err(Refused(refusal, place)) = test_literal(net, position, code) {
        return no_literal(refusal, place);
    }
    answer_literal(code.in_frame(position.base))
}
