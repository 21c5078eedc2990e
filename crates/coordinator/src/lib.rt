// The coordinator's own record, the phases that its numbers stand for, and when it is fit together with a table.
#![tactic(auto)]

ghost use Rattle.std.specs.Prelude.{◌≡◌};
ghost use Rattle.coordinator.specs.Phase.{phase_of, stand_of};
ghost use Rattle.coordinator.specs.State.{head_of, state_of, stated, bare};
ghost use Rattle.coordinator.specs.Fresh.{fresh, blank_table};
ghost use Rattle.coordinator.specs.Change.{with_phase, offered, holding, keeping, searching, finding, ended};

use board::Table;
use setup::Setup;

// The kinds of exchange in which the panel waits for a board, by the numbers that C is told.
#[derive(Clone, Copy)]
pub enum Exchange {
    Offer = 1,
    List,
    Forward,
    Return,
}

// The parts of the exchange by which a board joins, in their order: a wait for whoever has no address, Get Node ID due to
// the address at stake, the wait for it, the same once an ACK has come, Set Address due, the wait for it. Their numbers
// follow those of the other phases.
#[derive(Clone, Copy)]
pub enum Part {
    Search = 8,
    IdentifyDue,
    Identify,
    Present,
    AssignDue,
    Assign,
}

// What the panel is about: nothing, a wait for a board's answer, a transmission that is due to a board, an exchange by
// which a board joins. A forward names the board that made the request besides, and its wait whether the ACK has come; an
// exchange by which a board joins names the position whose address is at stake, listed or not. Unknown is a phase, since
// `phase_of` promises one for every number.
#[derive(Clone, Copy)]
pub enum Phase {
    Resting,
    Awaiting {
        board: usize,
        exchange: Exchange,
        requester: usize,
        acked: bool,
    },
    ForwardDue {
        board: usize,
        requester: usize,
    },
    ReturnDue {
        board: usize,
    },
    Seeking {
        position: usize,
        part: Part,
    },
    Unknown,
}

// A phase as a host lends it: its number, and the positions that it names. C lends a number: every one has a meaning.
#[repr(C)]
#[derive(Clone, Copy)]
pub struct Stand {
    pub stage: u8,
    pub board: usize,
    pub requester: usize,
}

// The message that is carried: the request until its response comes, then the response. C lends it, a payload of 240 with
// its length beside it.
#[repr(C)]
#[derive(Clone, Copy)]
pub struct Kept {
    pub message: u8,
    pub packet: u8,
    pub kind: u8,
    pub method: u8,
    pub parameter: u8,
    pub length: usize,
    pub payload: [u8; 240],
}

// What was discovered: type, version, MAC and session, from the discovery's response to the end of the exchange.
#[repr(C)]
#[derive(Clone, Copy, Default)]
pub struct Found {
    pub kind: u8,
    pub version: u8,
    pub mac: u64,
    pub session: u64,
}

// The head of the message that is carried: all but its payload.
#[derive(Clone, Copy, Default)]
pub struct Head {
    pub message: u8,
    pub packet: u8,
    pub kind: u8,
    pub method: u8,
    pub parameter: u8,
    pub length: usize,
}

// What a step reads of the coordinator besides the setup, and what it may change besides the payload that is kept.
#[derive(Clone, Copy)]
pub struct State {
    pub last: usize,
    pub held: u8,
    pub searched: u8,
    pub stand: Stand,
    pub head: Head,
    pub found: Found,
}

// The coordinator's record. `held` is 1 where joins are held, else 0; `searched` is 1 where a discovery was started since
// the last offer, else 0: numbers, as in `Stand`.
#[repr(C)]
#[derive(Clone, Copy)]
pub struct Coordinator {
    pub setup: Setup,
    pub last: usize,
    pub held: u8,
    pub searched: u8,
    pub stand: Stand,
    pub kept: Kept,
    pub found: Found,
}

// The phase that the numbers stand for; every other number is Unknown, which is not fit.
#[tactic(auto, unfolding(crate::specs::Phase::phase_of, ground::specs::Choose::choose))]
pub fn phase_of(stand: Stand) -> Phase
    ensures { result ≡ phase_of stand }
{
    let Stand {
        stage,
        board,
        requester,
    } = stand;
    let awaiting = |exchange, requester, acked| Phase::Awaiting {
        board,
        exchange,
        requester,
        acked,
    };
    let seeking = |part| Phase::Seeking {
        position: board,
        part,
    };
    match stage {
        0 => Phase::Resting,
        1 => awaiting(Exchange::Offer, 0, false),
        2 => awaiting(Exchange::List, 0, false),
        3 => awaiting(Exchange::Forward, requester, false),
        4 => awaiting(Exchange::Forward, requester, true),
        5 => awaiting(Exchange::Return, 0, false),
        6 => Phase::ForwardDue { board, requester },
        7 => Phase::ReturnDue { board },
        8 => seeking(Part::Search),
        9 => seeking(Part::IdentifyDue),
        10 => seeking(Part::Identify),
        11 => seeking(Part::Present),
        12 => seeking(Part::AssignDue),
        13 => seeking(Part::Assign),
        _ => Phase::Unknown,
    }
}

// The numbers of a phase; a position that it does not name is 0.
#[tactic(auto, unfolding(crate::specs::Phase::stand_of))]
impl From<Phase> for Stand {
    ghost from_gives = { λ phase stand. stand ≡ stand_of phase };

    fn from(phase: Phase) -> Stand {
        let (stage, board, requester) = match phase {
            Phase::Resting => (0, 0, 0),
            Phase::Awaiting {
                board,
                exchange,
                requester,
                acked,
            } => match exchange {
                Exchange::Offer => (1, board, 0),
                Exchange::List => (2, board, 0),
                Exchange::Forward if acked => (4, board, requester),
                Exchange::Forward => (3, board, requester),
                Exchange::Return => (5, board, 0),
            },
            Phase::ForwardDue { board, requester } => (6, board, requester),
            Phase::ReturnDue { board } => (7, board, 0),
            Phase::Seeking { position, part } => (part as u8, position, 0),
            Phase::Unknown => (14, 0, 0),
        };
        Stand {
            stage,
            board,
            requester,
        }
    }
}

// The head of a message that is kept, read where it stands.
impl From<&Kept> for Head {
    ghost from_gives = { λ kept head. head ≡ head_of kept.now };

    fn from(kept: &Kept) -> Head {
        Head {
            message: kept.message,
            packet: kept.packet,
            kind: kept.kind,
            method: kept.method,
            parameter: kept.parameter,
            length: kept.length,
        }
    }
}

// The state of a coordinator, read where it stands: its payload is not copied.
impl From<&Coordinator> for State {
    ghost from_gives = { λ coordinator state. state ≡ state_of coordinator.now };

    fn from(coordinator: &Coordinator) -> State {
        State {
            last: coordinator.last,
            held: coordinator.held,
            searched: coordinator.searched,
            stand: coordinator.stand,
            head: Head::from(&coordinator.kept),
            found: coordinator.found,
        }
    }
}

// The coordinator of a fresh start.
pub fn fresh(setup: Setup) -> Coordinator
    ensures { result ≡ fresh setup }
{
    Coordinator {
        setup,
        last: 0,
        held: 0,
        searched: 0,
        stand: Phase::Resting.into(),
        // Not derived: the derive fills an array by a call for each of its 240 bytes.
        kept: Kept {
            message: 0,
            packet: 0,
            kind: 0,
            method: 0,
            parameter: 0,
            length: 0,
            payload: [0; 240],
        },
        found: Found::default(),
    }
}

// The table of a fresh start.
pub fn blank_table() -> Table
    ensures { result.nodes ≡ blank_table }
{
    Table {
        nodes: [board::blank_node(); 40],
    }
}

// The state in another phase.
pub fn with_phase(state: State, phase: Phase) -> State
    ensures { result ≡ state_of (with_phase (stated state) phase) }
{
    State {
        stand: phase.into(),
        ..state
    }
}

// The state once a board was offered the bus.
pub fn offered(state: State, board: usize) -> State
    ensures { result ≡ state_of (offered (stated state) board) }
{
    let phase = Phase::Awaiting {
        board,
        exchange: Exchange::Offer,
        requester: 0,
        acked: false,
    };
    State {
        last: board,
        held: 0,
        searched: 0,
        stand: phase.into(),
        ..state
    }
}

// The state with joins held or not.
pub fn holding(state: State, held: bool) -> State
    ensures { result ≡ state_of (holding (stated state) held) }
{
    State {
        held: held.into(),
        ..state
    }
}

// The state with another message kept, whose head this is.
pub fn keeping(state: State, head: Head) -> State
    ensures { result ≡ state_of (keeping (stated state) (bare head)) }
{
    State { head, ..state }
}

// The state once a discovery was started, with the address of a position at stake.
pub fn searching(state: State, position: usize) -> State
    ensures { result ≡ state_of (searching (stated state) position) }
{
    let phase = Phase::Seeking {
        position,
        part: Part::Search,
    };
    State {
        searched: 1,
        stand: phase.into(),
        ..state
    }
}

// The state that keeps what was discovered, with Get Node ID due to the address at stake.
pub fn finding(state: State, found: Found, position: usize) -> State
    ensures { result ≡ state_of (finding (stated state) found position) }
{
    let phase = Phase::Seeking {
        position,
        part: Part::IdentifyDue,
    };
    State {
        stand: phase.into(),
        found,
        ..state
    }
}

// The state after an exchange by which a board joins: at rest, and what was discovered is forgotten.
pub fn ended(state: State) -> State
    ensures { result ≡ state_of (ended (stated state)) }
{
    State {
        stand: Phase::Resting.into(),
        found: Found::default(),
        ..state
    }
}
