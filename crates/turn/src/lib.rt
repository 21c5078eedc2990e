// Turn: the panel's next transmission.
#![tactic(auto)]

ghost use Rattle.std.specs.Prelude.{◌≡◌, length, take, false};
ghost use Rattle.board.specs.Table.{at};
ghost use Rattle.message.specs.Message.{to_board, Sends};
ghost use Rattle.coordinator.specs.declared.Exchange.TheVariants.{Forward};
ghost use Rattle.coordinator.specs.Phase.{phase_of};
ghost use Rattle.coordinator.specs.State.{kept_as};
ghost use Rattle.look.specs.Seen.{OfIndexes, OfVersions, OfSent};
ghost use Rattle.steps.specs.Seek.{is_waiting};
ghost use Rattle.steps.specs.Turn.{carried_header, due_carried, due_list, due_offer, due_own, due_identify, due_assign, due_seek, due_in, is_awaiting, is_due, turn_of};
ghost use Rattle.change.specs.declared.Move.TheVariants.{To};
ghost use Rattle.change.specs.Decides.{Decides};
ghost use Rattle.turn.specs.Sending.{sending, sent_as, addressed, OfKept};

use board::Columns;
use change::{Change, Edit, Move};
use coordinator::{Exchange, Head, Part, Phase};
use frame::Header;
use look::Seen;
use message::Addressee;
use refusal::Refusal;
use setup::Setup;
use steps::{Answer, Seek};

// The change that a transmission makes. Where it was written it says what the panel now waits for, how the coordinator moves
// and what is done to the record at a position; where it was not, nothing changes.
fn sent(
    writing: Result<usize, Refusal>,
    next: Move,
    position: usize,
    edit: Edit,
    answer: Answer,
) -> Change
    ensures { result ≡ sent_as writing next position edit answer }
{
    match writing {
        Ok(n) => change::changing(next, position, edit, answer, n),
        Err(refusal) => change::refusing(refusal),
    }
}

// The coordinator waits for a board.
fn waiting(board: usize, exchange: Exchange, requester: usize) -> Move
    ensures { result ≡ To (Phase.Awaiting board exchange requester false) }
{
    Move::To(Phase::Awaiting {
        board,
        exchange,
        requester,
        acked: false,
    })
}

// Whom a message of ours goes to, by the columns.
fn addressed(columns: &Columns, board: usize) -> Addressee
    ensures { result ≡ addressed columns.now board }
{
    Addressee {
        board,
        version: board::byte_at(&columns.versions, board),
        index: board::byte_at(&columns.indexes, board),
    }
}

// Writes the message that is kept to a board. Its length is cut at the payload's, so that no length is out of bounds; whom
// it goes to and comes from is for the writer to say. Parameter 2 is the sender's, so that whom it goes to is no `Addressee`.
fn write_carried(
    head: Head,
    payload: &[u8],
    setup: Setup,
    board: usize,
    version: u8,
    parameter2: u8,
    out: &mut [u8],
) -> Result<usize, Refusal>
    ensures { Sends (to_board setup board version (carried_header (kept_as head payload.now) parameter2)) (take head.length payload.now) result out.old out.new }
{
    let header = Header {
        method: head.method,
        parameter1: head.parameter,
        parameter2,
        kind: head.kind,
        message: head.message,
        packet: head.packet,
        ..Header::default()
    };
    let n = ground::least(head.length, payload.len());
    message::write_to(setup, board, version, header, &payload[..n], out)
}

// Sends the message that is kept to a board.
fn send_carried(
    seen: Seen,
    payload: &[u8],
    columns: &Columns,
    board: usize,
    exchange: Exchange,
    requester: usize,
    parameter2: u8,
    out: &mut [u8],
) -> Change
    ensures { Decides seen (λ c t. OfKept payload.now c t × OfVersions columns.now.versions c t) (λ c t. sending (due_carried c t board exchange requester parameter2) c t (length out.old)) result out.old out.new }
{
    let version = board::byte_at(&columns.versions, board);
    let writing = write_carried(
        seen.state.head,
        payload,
        seen.setup,
        board,
        version,
        parameter2,
        out,
    );
    let next = waiting(board, exchange, requester);
    let answer = Answer::Wait(board, exchange);
    sent(writing, next, 0, Edit::Nothing, answer)
}

// Forwards the request to a board: parameter 2 is the requester's index.
fn send_forward(
    seen: Seen,
    payload: &[u8],
    columns: &Columns,
    board: usize,
    requester: usize,
    out: &mut [u8],
) -> Change
    ensures { Decides seen (λ c t. OfKept payload.now c t × OfIndexes columns.now.indexes c t × OfVersions columns.now.versions c t) (λ c t. sending (due_carried c t board Forward requester (at t requester).index) c t (length out.old)) result out.old out.new }
{
    let index = board::byte_at(&columns.indexes, requester);
    send_carried(
        seen,
        payload,
        columns,
        board,
        Exchange::Forward,
        requester,
        index,
        out,
    )
}

// Sends the node list to a board, clearing its mark.
fn send_list(seen: Seen, columns: &Columns, board: usize, out: &mut [u8]) -> Change
    ensures { Decides seen (OfSent columns.now) (λ c t. sending (due_list c t board) c t (length out.old)) result out.old out.new }
{
    let to = addressed(columns, board);
    let writing = message::write_list(seen.setup, columns, seen.top, to, out);
    let next = waiting(board, Exchange::List, 0);
    let answer = Answer::Wait(board, Exchange::List);
    sent(writing, next, board, Edit::Unmarked, answer)
}

// Offers a board the bus.
fn send_offer(seen: Seen, columns: &Columns, board: usize, out: &mut [u8]) -> Change
    ensures { Decides seen (λ c t. OfIndexes columns.now.indexes c t × OfVersions columns.now.versions c t) (λ c t. sending (due_offer c t board) c t (length out.old)) result out.old out.new }
{
    let to = addressed(columns, board);
    let writing = message::write_signed(seen.setup, to, 0, out);
    let answer = Answer::Wait(board, Exchange::Offer);
    sent(writing, Move::Offered(board), 0, Edit::Nothing, answer)
}

// Our own next transmission: the list to the lowest position owed, else an offer to the next listed position. Nobody is
// listed above the highest listed position, so nobody is looked for there.
fn send_own(seen: Seen, columns: &Columns, out: &mut [u8]) -> Change
    ensures { Decides seen (OfSent columns.now) (λ c t. sending (due_own c t) c t (length out.old)) result out.old out.new }
{
    let owed = seen.owed;
    if 0 < owed {
        return send_list(seen, columns, owed, out);
    }
    let board = board::next_listed(&columns.kinds, seen.top, seen.state.last);
    send_offer(seen, columns, board, out)
}

// The coordinator waits in the exchange by which a board joins.
fn seeking(position: usize, part: Part) -> Move
    ensures { result ≡ To (Phase.Seeking position part) }
{
    Move::To(Phase::Seeking { position, part })
}

// Asks whoever has the address at stake for his ID.
fn send_identify(seen: Seen, indexes: &[u8; 40], position: usize, out: &mut [u8]) -> Change
    ensures { Decides seen (OfIndexes indexes.now) (λ c t. sending (due_identify c t position) c t (length out.old)) result out.old out.new }
{
    let to = Addressee {
        board: position,
        version: seen.state.found.version,
        index: board::byte_at(indexes, position),
    };
    let writing = message::write_identify(seen.setup, to, out);
    let next = seeking(position, Part::Identify);
    let answer = Answer::Seek(position, Seek::Identify);
    sent(writing, next, 0, Edit::Nothing, answer)
}

// Gives what was discovered the address at stake.
fn send_assign(seen: Seen, position: usize, out: &mut [u8]) -> Change
    ensures { Decides seen (λ c t. Unit {0}) (λ c t. sending (due_assign c t position) c t (length out.old)) result out.old out.new }
{
    let found = seen.state.found;
    let writing = message::write_assign(
        seen.setup,
        position,
        found.version,
        found.mac,
        found.session,
        out,
    );
    let next = seeking(position, Part::Assign);
    let answer = Answer::Seek(position, Seek::Assign);
    sent(writing, next, 0, Edit::Nothing, answer)
}

// What the exchange by which a board joins has due, in a part that does not wait.
fn send_seek(part: Part, seen: Seen, indexes: &[u8; 40], position: usize, out: &mut [u8]) -> Change
    requires { is_waiting part ≡ false }
    ensures { Decides seen (OfIndexes indexes.now) (λ c t. sending (due_seek part c t position) c t (length out.old)) result out.old out.new }
{
    match part {
        Part::IdentifyDue => send_identify(seen, indexes, position, out),
        _ => send_assign(seen, position, out),
    }
}

// The next transmission where no wait is on: a return or a forward that is due, what an exchange by which a board joins has
// due, else our own. A return's parameter 2 is 0.
fn send_due(phase: Phase, seen: Seen, payload: &[u8], columns: &Columns, out: &mut [u8]) -> Change
    requires { is_awaiting phase ≡ false }
    ensures { Decides seen (λ c t. (phase ≡ phase_of c.stand) × (payload.now ≡ c.kept.payload) × OfSent columns.now c t) (λ c t. sending (due_in phase c t) c t (length out.old)) result out.old out.new }
{
    match phase {
        Phase::ReturnDue { board } => {
            send_carried(seen, payload, columns, board, Exchange::Return, 0, 0, out)
        }
        Phase::ForwardDue { board, requester } => {
            send_forward(seen, payload, columns, board, requester, out)
        }
        Phase::Seeking { position, part } => {
            send_seek(part, seen, &columns.indexes, position, out)
        }
        _ => send_own(seen, columns, out),
    }
}

// Whether a wait is on.
fn is_awaiting(phase: Phase) -> bool
    ensures { result ≡ is_awaiting phase }
{
    match phase {
        Phase::Awaiting { .. } => true,
        Phase::Seeking { part, .. } => steps::is_waiting(part),
        _ => false,
    }
}

// Whether a transmission is due by itself, though nobody be listed.
fn is_due(phase: Phase) -> bool
    ensures { result ≡ is_due phase }
{
    match phase {
        Phase::ForwardDue { .. } | Phase::ReturnDue { .. } => true,
        Phase::Seeking { part, .. } => !steps::is_waiting(part),
        _ => false,
    }
}

// Writes the panel's next transmission, and waits for the answer to it. The payload is the one that is kept.
pub fn turn(seen: Seen, payload: &[u8], columns: &Columns, out: &mut [u8]) -> Change
    ensures { Decides seen (λ c t. (payload.now ≡ c.kept.payload) × OfSent columns.now c t) (λ c t. turn_of c t (length out.old)) result out.old out.new }
{
    let phase = coordinator::phase_of(seen.state.stand);
    if is_awaiting(phase) {
        return change::refusing(Refusal::AwaitingReply);
    }
    if (seen.top == 0) & !is_due(phase) {
        return change::refusing(Refusal::NobodyListed);
    }
    send_due(phase, seen, payload, columns, out)
}
