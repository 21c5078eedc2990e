// Which received frame a wait takes. Only the frame's message type and send method decide, and what the caller found of
// its payload: whether it is the board's ACK, whether it is the list that was sent. In the exchange by which a board joins
// its length and form decide too: there may be no record to compare it with.
#![tactic(auto)]

ghost use Rattle.std.specs.Prelude.{◌≡◌};
ghost use Rattle.accept.specs.Accept.{is_ack, ack_session, heard_after_offer, heard_after_list, heard_after_forward, heard_after_return};
ghost use Rattle.accept.specs.Replies.{is_discovery, is_any_ack, is_assignment, heard_in_search, heard_in_identify, heard_in_assign};

use refusal::Refusal;

// What a frame that is taken is to the wait that it comes in: an ACK, the list's echo, a request for the host, a request to
// be routed, the response to a forward.
#[derive(Clone, Copy)]
pub enum Heard {
    Ack,
    Echo,
    Deliver,
    Route,
    Answer,
}

// What a frame that is taken is to a wait of the exchange by which a board joins: the discovery's response, an ACK from the
// address at stake, the ID of who has it, the echo of its assignment.
#[derive(Clone, Copy)]
pub enum Reply {
    Discovered,
    Present,
    Identified,
    Assigned,
}

// Whether the payload of a type 0 frame is the ACK of the board with this MAC.
#[tactic(auto, unfolding(crate::specs::Accept::is_ack))]
pub fn is_ack(payload: &[u8], mac: u64) -> bool
    ensures { result ≡ is_ack mac payload.now }
{
    payload.len() == 17 && payload[0] == 6 && word::word_at(payload, 1) == mac
}

// The session that an ACK carries.
pub fn ack_session(payload: &[u8]) -> u64
    ensures { result ≡ ack_session payload.now }
{
    word::word_at(payload, 9)
}

// What a frame is after an offer, or why it is not taken.
#[tactic(auto, unfolding(ground::specs::Choose::choose, crate::specs::Accept::heard_after_offer))]
pub fn after_offer(message: u8, method: u8, ack: bool) -> Result<Heard, Refusal>
    ensures { result ≡ heard_after_offer message method ack }
{
    match message {
        0 if ack => Ok(Heard::Ack),
        1..=127 => match method {
            0 => Ok(Heard::Deliver),
            1..=3 => Ok(Heard::Route),
            _ => Err(Refusal::BadMethod),
        },
        _ => Err(Refusal::UnexpectedType),
    }
}

// What a frame is after a list, or why it is not taken; `same` says that its payload is the list that was sent.
#[tactic(auto, unfolding(ground::specs::Choose::choose, crate::specs::Accept::heard_after_list))]
pub fn after_list(message: u8, same: bool) -> Result<Heard, Refusal>
    ensures { result ≡ heard_after_list message same }
{
    match message {
        0x94 if same => Ok(Heard::Echo),
        0x94 => Err(Refusal::BadEcho),
        _ => Err(Refusal::UnexpectedType),
    }
}

// What a frame is after a request of this type was forwarded, or why it is not taken; `acked` says that an ACK came already.
#[tactic(auto, unfolding(ground::specs::Choose::choose, crate::specs::Accept::heard_after_forward))]
pub fn after_forward(message: u8, request: u8, ack: bool, acked: bool) -> Result<Heard, Refusal>
    ensures { result ≡ heard_after_forward message request ack acked }
{
    match message {
        0 if ack && !acked => Ok(Heard::Ack),
        128..=255 if message - 128 == request => Ok(Heard::Answer),
        _ => Err(Refusal::UnexpectedType),
    }
}

// What a frame is after a return, or why it is not taken.
#[tactic(auto, unfolding(ground::specs::Choose::choose, crate::specs::Accept::heard_after_return))]
pub fn after_return(message: u8, ack: bool) -> Result<Heard, Refusal>
    ensures { result ≡ heard_after_return message ack }
{
    match message {
        0 if ack => Ok(Heard::Ack),
        _ => Err(Refusal::UnexpectedType),
    }
}

// What a frame is in search, or why it is not taken.
#[tactic(auto, unfolding(ground::specs::Choose::choose, crate::specs::Replies::heard_in_search))]
pub fn in_search(message: u8, payload: &[u8]) -> Result<Reply, Refusal>
    ensures { result ≡ heard_in_search message payload.now }
{
    match message {
        0xF9 if payload.len() == 18 => Ok(Reply::Discovered),
        _ => Err(Refusal::UnexpectedType),
    }
}

// Whether a frame is an ACK, of any MAC.
fn is_any_ack(message: u8, payload: &[u8]) -> bool
    ensures { result ≡ is_any_ack message payload.now }
{
    message == 0 && is_ack(payload, word::word_at(payload, 1))
}

// What a frame is in identify, or why it is not taken; `acked` says that an ACK came already.
#[tactic(auto, unfolding(ground::specs::Choose::choose, crate::specs::Replies::heard_in_identify))]
pub fn in_identify(message: u8, payload: &[u8], acked: bool) -> Result<Reply, Refusal>
    ensures { result ≡ heard_in_identify message payload.now acked }
{
    match message {
        0 if is_any_ack(message, payload) && !acked => Ok(Reply::Present),
        0xFB if payload.len() == 17 => Ok(Reply::Identified),
        _ => Err(Refusal::UnexpectedType),
    }
}

// Whether a payload is Set Address's for this address, subnet, MAC and session.
#[tactic(auto, unfolding(crate::specs::Replies::is_assignment))]
pub fn is_assignment(payload: &[u8], address: u8, subnet: u8, mac: u64, session: u64) -> bool
    ensures { result ≡ is_assignment address subnet mac session payload.now }
{
    payload.len() == 19
        && payload[0] == address
        && payload[1] == subnet
        && word::word_at(payload, 2) == mac
        && word::word_at(payload, 10) == session
        && payload[18] == 1
}

// `after_list` has the same three arms; one function for both would take type and case as parameters, and be no shorter.

// What a frame is in assign, or why it is not taken; `same` says that its payload is the one that was sent.
#[tactic(auto, unfolding(ground::specs::Choose::choose, crate::specs::Replies::heard_in_assign))]
pub fn in_assign(message: u8, same: bool) -> Result<Reply, Refusal>
    ensures { result ≡ heard_in_assign message same }
{
    match message {
        0xFA if same => Ok(Reply::Assigned),
        0xFA => Err(Refusal::BadEcho),
        _ => Err(Refusal::UnexpectedType),
    }
}
