// The frames that the panel itself writes: the offer and the ACK, the node list, what it carries from board to board, and
// those of the exchange by which a board joins.
#![tactic(auto)]

ghost use Rattle.std.specs.Prelude.{◌≡◌, []};
ghost use Rattle.board.specs.Columns.{typed};
ghost use Rattle.nodelist.specs.Condensed.{condensed};
ghost use Rattle.nodelist.specs.List.{list_to, list_over};
ghost use Rattle.message.specs.Message.{to_board, own_header, signed, signed_header, list_header, broadcast_header, discovery_header, every_kind, identify_header, assign_header, assignment, Sends};

use board::Columns;
use frame::Header;
use refusal::Refusal;
use setup::Setup;

// Whom a message of ours goes to: a position, the version of the board there, which tells the subnet, and its index, which is parameter 2.
#[derive(Clone, Copy)]
pub struct Addressee {
    pub board: usize,
    pub version: u8,
    pub index: u8,
}

// A header sent to a board of a version: to its address, from us, in its subnet.
fn to_board(setup: Setup, board: usize, version: u8, header: Header) -> Header
    ensures { result ≡ to_board setup board version header }
{
    Header {
        destination: setup::address_at(setup, board),
        source: 255,
        subnet: setup::subnet_of(setup, version),
        ..header
    }
}

// Writes a frame to a board of a version. Whom a frame goes to and comes from is said here only; the other fields are the header's.
pub fn write_to(
    setup: Setup,
    board: usize,
    version: u8,
    header: Header,
    payload: &[u8],
    out: &mut [u8],
) -> Result<usize, Refusal>
    ensures { Sends (to_board setup board version header) payload.now result out.old out.new }
{
    frame::write(to_board(setup, board, version, header), payload, out)
}

// Writes a message of our own to a board. The header's first three fields are `write_to`'s to say.
fn write_own(
    setup: Setup,
    to: Addressee,
    message: u8,
    packet: u8,
    payload: &[u8],
    out: &mut [u8],
) -> Result<usize, Refusal>
    ensures { Sends (own_header setup to.board to.version to.index message packet) payload.now result out.old out.new }
{
    let header = Header {
        parameter2: to.index,
        kind: 165,
        message,
        packet,
        ..Header::default()
    };
    write_to(setup, to.board, to.version, header, payload, out)
}

// A code, then our MAC and our session.
#[tactic(auto, unfolding(crate::specs::Message::signed, word::specs::Words::bytes_of))]
fn signed_bytes(setup: Setup, code: u8) -> [u8; 17]
    ensures { result ≡ signed setup code }
{
    let mut bytes = [0; 17];
    bytes[0] = code;
    bytes[1..9].copy_from_slice(&word::bytes_of(setup.mac));
    bytes[9..].copy_from_slice(&word::bytes_of(setup.session));
    bytes
}

// Writes the offer to a board with code 0, the ACK with code 6.
pub fn write_signed(setup: Setup, to: Addressee, code: u8, out: &mut [u8]) -> Result<usize, Refusal>
    ensures { Sends (signed_header setup to.board to.version to.index) (signed setup code) result out.old out.new }
{
    write_own(setup, to, 0, 0x80, &signed_bytes(setup, code), out)
}

// Writes the whole node list to a board, up to the highest listed position. It has at most 41 bytes, so that the buffer
// always holds it.
fn write_whole(
    setup: Setup,
    kinds: &[u8; 40],
    top: usize,
    to: Addressee,
    out: &mut [u8],
) -> Result<usize, Refusal>
    ensures { Sends (list_header setup to.board to.version to.index) (list_to top setup.internal (typed kinds.now)) result out.old out.new }
{
    let mut payload = [0; 41];
    let n = nodelist::write_list(setup.internal, kinds, top, &mut payload)?;
    write_own(setup, to, 0x14, 0, &payload[..n], out)
}

// Writes the condensed node list to a board.
fn write_condensed(
    setup: Setup,
    columns: &Columns,
    to: Addressee,
    out: &mut [u8],
) -> Result<usize, Refusal>
    ensures { Sends (list_header setup to.board to.version to.index) (condensed setup.internal columns.now.kinds columns.now.versions) result out.old out.new }
{
    let payload = nodelist::condense(setup.internal, columns);
    write_own(setup, to, 0x14, 0, &payload, out)
}

// Writes the node list to a board in the form of its version.
pub fn write_list(
    setup: Setup,
    columns: &Columns,
    top: usize,
    to: Addressee,
    out: &mut [u8],
) -> Result<usize, Refusal>
    ensures { Sends (list_header setup to.board to.version to.index) (list_over to.version top setup.internal columns.now.kinds columns.now.versions) result out.old out.new }
{
    if to.version == 1 {
        return write_condensed(setup, columns, to, out);
    }
    write_whole(setup, &columns.kinds, top, to, out)
}

// Writes a broadcast of the exchange by which a board joins.
fn write_broadcast(
    message: u8,
    packet: u8,
    payload: &[u8],
    out: &mut [u8],
) -> Result<usize, Refusal>
    ensures { Sends (broadcast_header message packet) payload.now result out.old out.new }
{
    let header = Header {
        source: 255,
        kind: 165,
        message,
        packet,
        ..Header::default()
    };
    frame::write(header, payload, out)
}

// Writes Node Discovery, to every node type.
pub fn write_discovery(out: &mut [u8]) -> Result<usize, Refusal>
    ensures { Sends discovery_header every_kind result out.old out.new }
{
    write_broadcast(0x79, 0x20, &[0], out)
}

// Writes Get Node ID to the address of a position, in the subnet of a version.
pub fn write_identify(setup: Setup, to: Addressee, out: &mut [u8]) -> Result<usize, Refusal>
    ensures { Sends (identify_header setup to.board to.version to.index) [] result out.old out.new }
{
    write_own(setup, to, 0x7B, 0, &[], out)
}

// The address of a position, the subnet of a version, then the MAC and the session of whom it is for, and 1.
#[tactic(auto, unfolding(crate::specs::Message::assignment, word::specs::Words::bytes_of))]
fn assignment_bytes(setup: Setup, position: usize, version: u8, mac: u64, session: u64) -> [u8; 19]
    ensures { result ≡ assignment setup position version mac session }
{
    let mut bytes = [0; 19];
    bytes[0] = setup::address_at(setup, position);
    bytes[1] = setup::subnet_of(setup, version);
    bytes[2..10].copy_from_slice(&word::bytes_of(mac));
    bytes[10..18].copy_from_slice(&word::bytes_of(session));
    bytes[18] = 1;
    bytes
}

// Writes Set Address: who has this MAC and this session shall have the address of a position, in the subnet of a version.
pub fn write_assign(
    setup: Setup,
    position: usize,
    version: u8,
    mac: u64,
    session: u64,
    out: &mut [u8],
) -> Result<usize, Refusal>
    ensures { Sends assign_header (assignment setup position version mac session) result out.old out.new }
{
    write_broadcast(
        0x7A,
        0,
        &assignment_bytes(setup, position, version, mac, session),
        out,
    )
}
