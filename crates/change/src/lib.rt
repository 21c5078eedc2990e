// The change: what a step decides on. What becomes of the coordinator, one record edited, the list owed to all or not, and
// what it answers.
#![tactic(auto)]

ghost use Rattle.std.specs.Prelude.{◌≡◌, false, ◌≤◌, length};
ghost use Rattle.ground.specs.Choose.{choose};
ghost use Rattle.coordinator.specs.State.{state_of, stated};
ghost use Rattle.steps.specs.declared.Answer.TheVariants.{Rest, Refuse};
ghost use Rattle.change.specs.declared.Edit.TheVariants.{Nothing};
ghost use Rattle.change.specs.declared.Move.TheVariants.{Stay};
ghost use Rattle.change.specs.Change.{edited, head_in, rested, moved, keeps, changing, ending, kept_bytes, keepable};

use board::Node;
use coordinator::{Found, Head, Phase, State};
use refusal::Refusal;
use steps::{Answer, Outcome};

// What is done to one record: nothing, the list is owed to its board, the board has missed a message, it is dropped, the
// list went out to it, it was heard, it was heard with a session, it has joined.
#[derive(Clone, Copy)]
pub enum Edit {
    Nothing,
    Owed,
    Missed,
    Cleared,
    Unmarked,
    Heard,
    Renewed(u64),
    Joined(u8, u64, u64, u8),
}

// What becomes of the coordinator: it stays, it is in another phase, a board was offered the bus, joins are held, it is at
// rest and holds no joins, it keeps the message received and is in another phase, it looks for boards without an address,
// it keeps what was discovered.
#[derive(Clone, Copy)]
pub enum Move {
    Stay,
    To(Phase),
    Offered(usize),
    Held,
    Emptied,
    Keeping(Phase),
    Searching(usize),
    Finding(Found, usize),
}

// What a step decides on. `ended` says that an exchange by which a board joins is over before the coordinator moves, `owe`
// that once the record at the position is edited every index is counted anew and the list is owed to every listed board. Position 0 with the edit
// Nothing edits none, as `changing` has it.
#[derive(Clone, Copy)]
pub struct Change {
    pub ended: bool,
    pub position: usize,
    pub edit: Edit,
    pub owe: bool,
    pub outcome: Outcome,
    pub moves: Move,
}

// A record as an edit leaves it. The ways meet in one local, so that what the caller does with it is compiled once.
pub fn edited(edit: Edit, node: Node) -> Node
    ensures { result ≡ edited edit node }
{
    let edited = match edit {
        Edit::Nothing => node,
        Edit::Owed => board::owe(node),
        Edit::Missed => board::missed(node),
        Edit::Cleared => board::blank_node(),
        Edit::Unmarked => board::unmarked(node),
        Edit::Heard => board::heard(node),
        Edit::Renewed(session) => board::renewed(board::heard(node), session),
        Edit::Joined(kind, mac, session, version) => board::joined_node(
            kind, mac, session, version,
        ),
    };
    edited
}

// The state before the coordinator moves: at rest where an exchange by which a board joins is over.
#[tactic(auto, unfolding(ground::specs::Choose::choose))]
fn rested(ended: bool, state: State) -> State
    ensures { result ≡ state_of (rested ended (stated state)) }
{
    if ended {
        coordinator::ended(state)
    } else {
        state
    }
}

// The head of the message to keep, off the bytes received.
#[tactic(auto, unfolding(ground::specs::Choose::choose))]
fn head_of(received: &[u8]) -> Head
    ensures { result ≡ head_in received.now }
{
    if received.len() < 10 {
        return Head::default();
    }
    Head {
        message: received[7],
        packet: received[8],
        kind: received[6],
        method: received[3],
        parameter: received[4],
        length: received[9].into(),
    }
}

// The state that a change leaves of a state, once the coordinator has moved. The payload that it keeps is in no state.
pub fn after(change: Change, state: State, received: &[u8]) -> State
    ensures { result ≡ state_of (moved change.moves received.now (rested change.ended (stated state))) }
{
    let state = rested(change.ended, state);
    match change.moves {
        Move::Stay => state,
        Move::To(phase) => coordinator::with_phase(state, phase),
        Move::Offered(board) => coordinator::offered(state, board),
        Move::Held => coordinator::holding(state, true),
        Move::Emptied => coordinator::holding(
            coordinator::with_phase(state, Phase::Resting),
            false,
        ),
        Move::Keeping(phase) => {
            coordinator::with_phase(coordinator::keeping(state, head_of(received)), phase)
        }
        Move::Searching(position) => coordinator::searching(state, position),
        Move::Finding(found, position) => coordinator::finding(state, found, position),
    }
}

// Whether a change keeps the payload received.
pub fn keeps(change: Change) -> bool
    ensures { result ≡ keeps change.moves }
{
    matches!(change.moves, Move::Keeping(_))
}

// A change that joins nobody and drops nobody: what becomes of the coordinator, the record edited at a position, the answer
// and the count of bytes written.
pub fn changing(moves: Move, position: usize, edit: Edit, answer: Answer, written: usize) -> Change
    ensures { result ≡ changing moves position edit false answer written 0 0 }
{
    Change {
        ended: false,
        position,
        edit,
        owe: false,
        outcome: Outcome {
            written,
            ..answer.into()
        },
        moves,
    }
}

// A refusal: nothing changes.
pub fn refusing(refusal: Refusal) -> Change
    ensures { result ≡ changing Stay 0 Nothing false (Refuse refusal) 0 0 0 }
{
    changing(Move::Stay, 0, Edit::Nothing, Answer::Refuse(refusal), 0)
}

// The panel rests; the list is owed to all or not, with the position joined and the one dropped, 0 for none, as in `Outcome`;
// all that `changing` names where the answer is Rest.
pub fn resting(
    moves: Move,
    position: usize,
    edit: Edit,
    owe: bool,
    joined: usize,
    dropped: usize,
) -> Change
    ensures { result ≡ changing moves position edit owe Rest 0 joined dropped }
{
    let change = changing(moves, position, edit, Answer::Rest, 0);
    Change {
        owe,
        outcome: Outcome {
            joined,
            dropped,
            ..change.outcome
        },
        ..change
    }
}

// The same change, once an exchange by which a board joins is over.
pub fn ending(change: Change) -> Change
    ensures { result ≡ ending change }
{
    Change {
        ended: true,
        ..change
    }
}

// The payload to keep of bytes received.
#[tactic(auto, using(crate::proofs::Keeping::keeps_padded), unfolding(ground::specs::Choose::choose))]
fn kept_bytes(received: &[u8]) -> [u8; 240]
    ensures { result ≡ kept_bytes (keepable received.now) }
{
    if received.len() < 10 {
        return [0; 240];
    }
    let payload = &received[10..];
    let n = usize::from(received[9]).min(payload.len());
    ground::padded(&payload[..n])
}

// The payload received put over the one that is kept, where it is to be kept: the clause says what stays otherwise too.
#[tactic(auto, unfolding(ground::specs::Choose::choose))]
pub fn keep(keep: bool, received: &[u8], payload: &mut [u8; 240])
    ensures { payload.new ≡ choose keep (kept_bytes (keepable received.now)) payload.old }
{
    if keep {
        *payload = kept_bytes(received);
    }
}
