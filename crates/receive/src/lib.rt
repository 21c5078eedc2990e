// The step of bytes received: which frame a wait takes, and what the panel does on it.
#![tactic(auto)]

ghost use Rattle.std.specs.Prelude.{◌≡◌, true, length, Ok};
ghost use Rattle.board.specs.Table.{at};
ghost use Rattle.board.specs.Columns.{kinds_of, versions_of};
ghost use Rattle.coordinator.specs.Phase.{phase_of};
ghost use Rattle.coordinator.specs.State.{bare};
ghost use Rattle.look.specs.Seen.{OfBoards};
ghost use Rattle.steps.specs.Receive.{is_seeking, answers_forward, is_stray, taken_as, seeks_old, receive_of};
ghost use Rattle.steps.specs.Seek.{source_in};
ghost use Rattle.change.specs.Decides.{Takes, Decides};
ghost use Rattle.receive.specs.Parts.{hearing, Acknowledges, Acks, Hears, is_acknowledged, Follows, TakesFrame, waited, listened, hears_from, read_from};

use accept::Heard;
use board::{Columns, Node};
use change::{Change, Edit, Move};
use coordinator::{Exchange, Found, Head, Part, Phase};
use frame::Header;
use look::Seen;
use message::Addressee;
use refusal::Refusal;
use setup::Setup;
use steps::Answer;

// A board's ACK is heard. Another session than the one on record replaces it, and all are owed the list.
#[tactic(auto, unfolding(ground::specs::Choose::choose))]
fn hearing(moves: Move, board: usize, node: Node, session: u64, answer: Answer) -> Change
    ensures { result ≡ hearing moves board node session answer }
{
    if session == node.session {
        return change::changing(moves, board, Edit::Heard, answer, 0);
    }
    Change {
        owe: true,
        ..change::changing(moves, board, Edit::Renewed(session), answer, 0)
    }
}

// What an accepted ACK does: it ends its wait, except after a forward.
fn acknowledged(
    node: Node,
    exchange: Exchange,
    board: usize,
    requester: usize,
    session: u64,
) -> Change
    ensures { Acknowledges node exchange board requester session result }
{
    match exchange {
        Exchange::Forward => {
            let phase = Phase::Awaiting {
                board,
                exchange,
                requester,
                acked: true,
            };
            let waits = Answer::Wait(board, exchange);
            hearing(Move::To(phase), board, node, session, waits)
        }
        _ => hearing(Move::To(Phase::Resting), board, node, session, Answer::Rest),
    }
}

// A refusal is a change from here on. With `Result<Change, Refusal>` and `?` in its place a frame took 2275 instructions for
// 2063 (`bench/run instructions`, one board).

// Writes the ACK due to the sender; where there is room for it the board is heard, and the coordinator moves.
fn acking(seen: Seen, to: Addressee, answer: Answer, after: Move, out: &mut [u8]) -> Change
    ensures { Acks seen to.board to.version to.index answer after result out.old out.new }
{
    match message::write_signed(seen.setup, to, 6, out) {
        Ok(written) => change::changing(after, to.board, Edit::Heard, answer, written),
        Err(refusal) => change::refusing(refusal),
    }
}

// What a frame is to the wait that is on, or why it is not taken. The node is the record of the board that is waited for.
fn heard_in(
    seen: Seen,
    node: Node,
    columns: &Columns,
    exchange: Exchange,
    acked: bool,
    header: Header,
    payload: &[u8],
) -> Result<Heard, Refusal>
    ensures { Hears seen columns.now.kinds columns.now.versions node exchange acked header payload.now result }
{
    let ack = accept::is_ack(payload, node.mac);
    let message = header.message;
    match exchange {
        Exchange::Offer => accept::after_offer(message, header.method, ack),
        Exchange::List => {
            let internal = seen.setup.internal;
            let top = seen.top;
            let same = nodelist::same_list(node.version, internal, columns, top, payload);
            accept::after_list(message, same)
        }
        Exchange::Forward => accept::after_forward(message, seen.state.head.message, ack, acked),
        Exchange::Return => accept::after_return(message, ack),
    }
}

// What follows a frame whose sender is acknowledged: the answer, and what becomes of the coordinator. A request that goes on
// is kept for its board, or discarded where there is none; the response to a forward is kept for the board that asked.
fn following(
    heard: Heard,
    seen: Seen,
    kinds: &[u8; 40],
    board: usize,
    requester: usize,
    header: Header,
) -> (Answer, Move)
    requires { is_acknowledged heard ≡ true }
    ensures { Follows heard seen kinds.now board requester header result }
{
    let rests = Move::To(Phase::Resting);
    match heard {
        Heard::Deliver => (Answer::Deliver, rests),
        Heard::Route => {
            let to = routing::route(kinds, seen.setup.k, board, header.method, header.parameter1);
            if to == 0 {
                return (Answer::Transmit, rests);
            }
            let phase = Phase::ForwardDue {
                board: to,
                requester: board,
            };
            (Answer::Transmit, Move::Keeping(phase))
        }
        Heard::Answer => (
            Answer::Transmit,
            Move::Keeping(Phase::ReturnDue { board: requester }),
        ),
        Heard::Echo => (Answer::Transmit, rests),
        Heard::Ack => unreachable!(),
    }
}

// What the panel does on a frame, by what the frame is to the wait.
fn taken(
    seen: Seen,
    node: Node,
    kinds: &[u8; 40],
    heard: Heard,
    exchange: Exchange,
    board: usize,
    requester: usize,
    header: Header,
    payload: &[u8],
    out: &mut [u8],
) -> Change
    ensures { TakesFrame seen (λ c t. (kinds.now ≡ kinds_of t) × (node ≡ at t board)) header payload.now (λ c t. taken_as (Ok heard) exchange board requester c t header payload.now (length out.old)) result out.old out.new }
{
    match heard {
        Heard::Ack => {
            let session = accept::ack_session(payload);
            acknowledged(node, exchange, board, requester, session)
        }
        Heard::Echo | Heard::Deliver | Heard::Route | Heard::Answer => {
            let (answer, moves) = following(heard, seen, kinds, board, requester, header);
            let to = Addressee {
                board,
                version: node.version,
                index: node.index,
            };
            acking(seen, to, answer, moves, out)
        }
    }
}

// Exchange, board and requester go one by one, as `Phase::Awaiting` holds them: a struct of the three would only be made and
// taken apart again.

// A frame that comes in the wait for a board, whose record is the node; one from another source leaves the wait as it is.
fn awaited(
    seen: Seen,
    node: Node,
    columns: &Columns,
    exchange: Exchange,
    board: usize,
    requester: usize,
    acked: bool,
    header: Header,
    payload: &[u8],
    out: &mut [u8],
) -> Change
    ensures { TakesFrame seen (λ c t. (columns.now.kinds ≡ kinds_of t) × (columns.now.versions ≡ versions_of t) × (node ≡ at t board)) header payload.now (λ c t. waited (Phase.Awaiting board exchange requester acked) c t header payload.now (length out.old)) result out.old out.new }
{
    if header.source != setup::address_at(seen.setup, board) {
        return change::refusing(Refusal::NotAwaited);
    }
    match heard_in(seen, node, columns, exchange, acked, header, payload) {
        Ok(heard) => taken(
            seen,
            node,
            &columns.kinds,
            heard,
            exchange,
            board,
            requester,
            header,
            payload,
            out,
        ),
        Err(refusal) => change::refusing(refusal),
    }
}

// The source that is awaited in a part of the exchange by which a board joins: 0 in search, else the address at stake.
fn source_in(part: Part, setup: Setup, position: usize) -> u8
    ensures { result ≡ source_in part setup position }
{
    match part {
        Part::Search => 0,
        _ => setup::address_at(setup, position),
    }
}

// A frame that comes in the exchange by which a board joins; one from another source than its part awaits leaves it as
// it is.
fn sought(
    part: Part,
    position: usize,
    seen: Seen,
    columns: &Columns,
    header: Header,
    payload: &[u8],
    out: &mut [u8],
) -> Change
    ensures { Decides seen (OfBoards columns.now) (λ c t. waited (Phase.Seeking position part) c t header payload.now (length out.old)) result out.old out.new }
{
    if !steps::is_waiting(part) || header.source != source_in(part, seen.setup, position) {
        return change::refusing(Refusal::NotAwaited);
    }
    seek::sought(part, position, seen, columns, header, payload, out)
}

// Whether an exchange by which a board joins runs.
fn is_seeking(phase: Phase) -> bool
    ensures { result ≡ is_seeking phase }
{
    matches!(phase, Phase::Seeking { .. })
}

// Whether the forward now awaited is of the request that a message of this type answers.
fn answers_forward(phase: Phase, head: Head, message: u8) -> bool
    ensures { result ≡ answers_forward phase (bare head) message }
{
    matches!(
        phase,
        Phase::Awaiting {
            exchange: Exchange::Forward,
            ..
        }
    ) && u16::from(message) == u16::from(head.message) + 128
}

// Whether a message is a response of the exchange by which a board joins, none runs, and no forward of the request that
// it answers is awaited.
fn is_stray(phase: Phase, head: Head, message: u8) -> bool
    ensures { result ≡ is_stray phase (bare head) message }
{
    (0xF9..=0xFB).contains(&message) && !is_seeking(phase) && !answers_forward(phase, head, message)
}

// A good frame for us that is no stray: it has to come in a wait. The node is the record of the board that the stand
// names.
fn waited(
    seen: Seen,
    node: Node,
    columns: &Columns,
    phase: Phase,
    header: Header,
    payload: &[u8],
    out: &mut [u8],
) -> Change
    ensures { TakesFrame seen (λ c t. OfBoards columns.now c t × ((node ≡ at t c.stand.board) × (phase ≡ phase_of c.stand))) header payload.now (λ c t. waited phase c t header payload.now (length out.old)) result out.old out.new }
{
    match phase {
        Phase::Awaiting {
            board,
            exchange,
            requester,
            acked,
        } => awaited(
            seen, node, columns, exchange, board, requester, acked, header, payload, out,
        ),
        Phase::Seeking { position, part } => sought(
            part, position, seen, columns, header, payload, out,
        ),
        _ => change::refusing(Refusal::NotAwaited),
    }
}

// A good frame: it has to be for us, no stray, and in a wait. The node is the record of the board that the stand names.
fn listened(
    seen: Seen,
    node: Node,
    columns: &Columns,
    header: Header,
    payload: &[u8],
    out: &mut [u8],
) -> Change
    ensures { TakesFrame seen (λ c t. OfBoards columns.now c t × (node ≡ at t c.stand.board)) header payload.now (λ c t. listened (phase_of c.stand) c t header payload.now (length out.old)) result out.old out.new }
{
    if header.destination != 255 {
        return change::refusing(Refusal::NotForUs);
    }
    let phase = coordinator::phase_of(seen.state.stand);
    if is_stray(phase, seen.state.head, header.message) {
        return change::refusing(Refusal::NotDiscovering);
    }
    waited(seen, node, columns, phase, header, payload, out)
}

// Whether a 1.0 board may answer in a part of the exchange by which a board joins: anyone in search, else what was
// discovered.
fn seeks_old(part: Part, found: Found) -> bool
    ensures { result ≡ seeks_old part found }
{
    matches!(part, Part::Search) || found.version == 1
}

// Whether a 1.0 board may answer in a phase. The node is the record of the board that the stand names.
fn hears_old(phase: Phase, node: Node, found: Found) -> bool
    ensures { result ≡ hears_from phase node found }
{
    match phase {
        Phase::Awaiting { .. } => node.version == 1,
        Phase::Seeking { part, .. } => seeks_old(part, found),
        _ => false,
    }
}

// The subnet in which bytes are read: a 1.0 board's where they carry it and one may answer, else ours. The node is the
// record of the board that the stand names.
#[tactic(auto, unfolding(ground::specs::Choose::choose))]
fn read_in(seen: Seen, node: Node, received: &[u8]) -> u8
    ensures { result ≡ read_from seen node received.now }
{
    let state = seen.state;
    if received.len() > 2
        && received[2] == 2
        && hears_old(coordinator::phase_of(state.stand), node, state.found)
    {
        return 2;
    }
    seen.setup.subnet
}

// The step of bytes received, of a coordinator and records that are fit. The node is the record of the board that the
// stand names.
pub fn receive(seen: Seen, node: Node, columns: &Columns, received: &[u8], out: &mut [u8]) -> Change
    ensures { Takes seen (λ c t. OfBoards columns.now c t × (node ≡ at t c.stand.board)) received.now (λ c t. receive_of c t received.now (length out.old)) result out.old out.new }
{
    match frame::read(read_in(seen, node, received), received) {
        Ok(frame) => {
            let end = 10 + frame.length;
            listened(seen, node, columns, frame.header, &received[10..end], out)
        }
        Err(refusal) => change::refusing(refusal),
    }
}
