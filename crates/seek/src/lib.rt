// The exchange by which a board joins: the step that starts it, and what its parts do on a frame and on a quiet. What it
// has due is the crate turn's to send.
#![tactic(auto)]

ghost use Rattle.std.specs.Prelude.{ℕ, ◌≤◌, ◌≡◌, List, length, drop, Ok};
ghost use Rattle.refusal.specs.Refusal.{ruled};
ghost use Rattle.frame.specs.Frame.{byte};
ghost use Rattle.board.specs.declared.Node.{Node};
ghost use Rattle.board.specs.Columns.{macs_of};
ghost use Rattle.coordinator.specs.declared.Coordinator.{Coordinator};
ghost use Rattle.coordinator.specs.State.{state_of};
ghost use Rattle.look.specs.Seen.{OfTypes, OfBoards};
ghost use Rattle.steps.specs.After.{refused, shows};
ghost use Rattle.steps.specs.Seek.{join_found, answered, present, outcome, settled, reply_in, replied_as, sought_in, quiet_in_seek};
ghost use Rattle.steps.specs.Discover.{discover_rules, searched, discover_of};
ghost use Rattle.change.specs.Change.{applied};
ghost use Rattle.change.specs.Decides.{Makes, Decides};
ghost use Rattle.seek.specs.Parts.{mac_place, version_in, found_at, teller, held_back_in, hearing};

use accept::Reply;
use board::{Columns, Wanted};
use change::{Change, Edit, Move};
use coordinator::{Found, Part, Phase, State};
use frame::Header;
use look::Seen;
use message::Addressee;
use refusal::Refusal;
use steps::{Answer, Outcome, Seek};

// Whether a discovery is held back: joins are held, or one was started since the last offer and someone is listed, that is
// the highest listed position is not 0.
fn is_held_back(state: State, top: usize) -> bool
    ensures { result ≡ held_back_in state top }
{
    state.held == 1 || (state.searched == 1 && 0 < top)
}

// A refusal is a change here as in the crate receive, where a `Result<Change, Refusal>` was slower.

// Writes Node Discovery with a position at stake, and waits for whoever has no address; `Full` where no position is free.
fn search(seen: Seen, kinds: &[u8; 40], out: &mut [u8]) -> Change
    ensures { Decides seen (OfTypes kinds.now) (λ c t. ruled (drop 3 (discover_rules c t (length out.old))) (refused c t) (searched c t)) result out.old out.new }
{
    let position = board::lowest(kinds, Wanted::Free, seen.setup.k);
    if position == 0 {
        return change::refusing(Refusal::Full);
    }
    match message::write_discovery(out) {
        Ok(written) => {
            let answer = Answer::Seek(position, Seek::Search);
            change::changing(Move::Searching(position), 0, Edit::Nothing, answer, written)
        }
        Err(refusal) => change::refusing(refusal),
    }
}

// Starts a discovery: writes Node Discovery, and waits for whoever has no address.
pub fn discover(seen: Seen, kinds: &[u8; 40], out: &mut [u8]) -> Change
    ensures { Decides seen (OfTypes kinds.now) (λ c t. discover_of c t (length out.old)) result out.old out.new }
{
    let state = seen.state;
    if join::is_busy(state, seen.owed) {
        return change::refusing(Refusal::Busy);
    }
    if is_held_back(state, seen.top) {
        return change::refusing(Refusal::Held);
    }
    search(seen, kinds, out)
}

// The first byte of a payload, 0 where it has none.
fn first_byte(payload: &[u8]) -> u8
    ensures { result ≡ byte payload.now 0 }
{
    payload.first().copied().unwrap_or(0)
}

// Where the MAC stands in the payload of a reply: a discovery's response has a reserved byte before it.
fn mac_place(reply: Reply) -> usize
    ensures { result ≡ mac_place reply }
{
    match reply {
        Reply::Discovered => 2,
        _ => 1,
    }
}

// The version of who sent a reply: a discovery's response tells it by its packet number, and every other reply comes from
// the subnet of what was discovered.
fn version_in(reply: Reply, packet: u8, found: Found) -> u8
    ensures { result ≡ version_in reply packet found }
{
    match reply {
        Reply::Discovered => board::version_of(packet / 32 % 2),
        _ => found.version,
    }
}

// Who sent a reply, with this version: the type is its first byte, the MAC stands at a place, and the session right after
// it. Every reply is read here, so that this is compiled once.
fn found_at(payload: &[u8], at: usize, version: u8) -> Found
    requires { at ≤ 2 }
    ensures { result ≡ found_at payload.now at version }
{
    Found {
        kind: first_byte(payload),
        version,
        mac: word::word_at(payload, at),
        session: word::word_at(payload, at + 8),
    }
}

// The join of a board, on the coordinator at rest.
fn join_found(seen: Seen, columns: &Columns, found: Found) -> Change
    ensures { Makes seen (OfBoards columns.now) (λ c t. join_found c t found) result }
{
    let rested = Seen {
        state: coordinator::ended(seen.state),
        ..seen
    };
    let joined = join::join(
        rested,
        columns,
        found.kind,
        found.mac,
        found.session,
        found.version,
    );
    change::ending(joined)
}

// The discovery was answered. Where who answered could join, the position that it would take is at stake; else the
// exchange breaks off.
fn answered(seen: Seen, columns: &Columns, found: Found) -> Change
    ensures { Makes seen (OfBoards columns.now) (λ c t. answered c t found) result }
{
    let joined = join_found(seen, columns, found);
    let position = joined.outcome.joined;
    if 0 < position {
        let next = Move::Finding(found, position);
        return change::resting(next, 0, Edit::Nothing, false, 0, 0);
    }
    change::ending(change::resting(Move::Stay, 0, Edit::Nothing, false, 0, 0))
}

// What a frame of this MAC from a position's address is to the record there: the board is heard where the MAC is its own.
#[tactic(auto, unfolding(ground::specs::Choose::choose))]
fn hearing(macs: &[u64; 40], position: usize, mac: u64) -> Edit
    ensures { result ≡ hearing macs.now position mac }
{
    if board::mac_at(macs, position) == mac {
        Edit::Heard
    } else {
        Edit::Nothing
    }
}

// An ACK from the address at stake: the wait goes on.
fn present(seen: Seen, macs: &[u64; 40], position: usize, mac: u64) -> Change
    ensures { Makes seen (λ c t. macs.now ≡ macs_of t) (λ c t. present c t position mac) result }
{
    let phase = Phase::Seeking {
        position,
        part: Part::Present,
    };
    let edit = hearing(macs, position, mac);
    let answer = Answer::Seek(position, Seek::Identify);
    change::changing(Move::To(phase), position, edit, answer, 0)
}

// How the exchange ends: who answered joins, where it takes the position at stake; else nobody does.
fn outcome(seen: Seen, columns: &Columns, position: usize, found: Found) -> Change
    ensures { Makes seen (OfBoards columns.now) (λ c t. outcome c t position found) result }
{
    let joined = join_found(seen, columns, found);
    if joined.outcome.joined == position {
        return joined;
    }
    let edit = hearing(&columns.macs, position, found.mac);
    change::ending(change::resting(Move::Stay, position, edit, false, 0, 0))
}

// Writes the ACK to a response that ends the exchange, with the index of the records that it leaves: it is counted among
// the types after it, since those records are not there yet. Where there is room for the ACK the exchange has ended.
fn settled(seen: Seen, columns: &Columns, position: usize, found: Found, out: &mut [u8]) -> Change
    ensures { Decides seen (OfBoards columns.now) (λ c t. settled c t position found (length out.old)) result out.old out.new }
{
    let after = outcome(seen, columns, position, found);
    let joined = after.outcome.joined;
    let types = board::with_byte(&columns.kinds, joined, found.kind);
    let to = Addressee {
        board: position,
        version: found.version,
        index: board::index_of(&types, position) as u8,
    };
    match message::write_signed(seen.setup, to, 6, out) {
        Ok(written) => Change {
            outcome: Outcome {
                answer: Answer::Transmit,
                written,
                joined,
                dropped: 0,
            },
            ..after
        },
        Err(refusal) => change::refusing(refusal),
    }
}

// What a frame is to the part that the exchange is in, or why it is not taken.
fn reply_in(
    part: Part,
    position: usize,
    seen: Seen,
    header: Header,
    payload: &[u8],
) -> Result<Reply, Refusal>
    ensures { (c : Coordinator) → seen.setup ≡ c.setup → seen.state ≡ state_of c → result ≡ reply_in part position c header payload.now }
{
    let message = header.message;
    match part {
        Part::Search => accept::in_search(message, payload),
        Part::Identify => accept::in_identify(message, payload, false),
        Part::Present => accept::in_identify(message, payload, true),
        Part::Assign => {
            let found = seen.state.found;
            let address = setup::address_at(seen.setup, position);
            let subnet = setup::subnet_of(seen.setup, found.version);
            let same = accept::is_assignment(payload, address, subnet, found.mac, found.session);
            accept::in_assign(message, same)
        }
        Part::IdentifyDue | Part::AssignDue => Err(Refusal::NotAwaited),
    }
}

// Who is to join by a reply that ends the exchange: whoever gave his ID, else what was discovered.
fn teller(reply: Reply, found: Found, told: Found) -> Found
    ensures { result ≡ teller reply found told }
{
    match reply {
        Reply::Identified => told,
        _ => found,
    }
}

// What the panel does on a frame in the exchange, by what the frame is to its part. The exchange ends in one place, so that
// its end is compiled once.
fn replied(
    reply: Reply,
    position: usize,
    seen: Seen,
    columns: &Columns,
    packet: u8,
    payload: &[u8],
    out: &mut [u8],
) -> Change
    ensures { Decides seen (OfBoards columns.now) (λ c t. replied_as (Ok reply) position c t packet payload.now (length out.old)) result out.old out.new }
{
    let version = version_in(reply, packet, seen.state.found);
    let told = found_at(payload, mac_place(reply), version);
    match reply {
        Reply::Discovered => answered(seen, columns, told),
        Reply::Present => present(seen, &columns.macs, position, told.mac),
        Reply::Identified | Reply::Assigned => {
            let found = teller(reply, seen.state.found, told);
            settled(seen, columns, position, found, out)
        }
    }
}

// A frame from the source that the exchange awaits.
pub fn sought(
    part: Part,
    position: usize,
    seen: Seen,
    columns: &Columns,
    header: Header,
    payload: &[u8],
    out: &mut [u8],
) -> Change
    ensures { Decides seen (OfBoards columns.now) (λ c t. sought_in part position c t header payload.now (length out.old)) result out.old out.new }
{
    match reply_in(part, position, seen, header, payload) {
        Ok(reply) => replied(reply, position, seen, columns, header.packet, payload, out),
        Err(refusal) => change::refusing(refusal),
    }
}

// Quiet in the exchange: where nobody answered at the address at stake it is free, and is to be assigned; else the
// exchange breaks off.
pub fn quieted(part: Part, position: usize) -> Change
    ensures { (p : List ℕ) (c : Coordinator) (t : List Node) → applied result p c t ≡ shows (quiet_in_seek part position c t) }
{
    match part {
        Part::IdentifyDue | Part::AssignDue => change::refusing(Refusal::NotWaiting),
        Part::Identify => {
            let phase = Phase::Seeking {
                position,
                part: Part::AssignDue,
            };
            change::resting(Move::To(phase), 0, Edit::Nothing, false, 0, 0)
        }
        Part::Search | Part::Present | Part::Assign => {
            change::ending(change::resting(Move::Stay, 0, Edit::Nothing, false, 0, 0))
        }
    }
}
