// Messages inside messages: Network Encapsulation (0x7E), read and written, up to four levels deep.
#![tactic(auto)]

ghost use Rattle.std.specs.Prelude.{◌≡◌, ◌+◌, ◌*◌, ◌≤◌, ◌<◌, length, take, IfOk};
ghost use Rattle.ground.specs.Bytes.{laid};
ghost use Rattle.frame.specs.Frame.{told_written, write_numbers};
ghost use Rattle.encapsulation.specs.Unwrap.{opened, opened_inside, unwrapping, payload_in};
ghost use Rattle.encapsulation.specs.Wrap.{sent, wrapping, wrapped_bytes};
ghost use Rattle.encapsulation.specs.Answer.{told_inside, told_opened, levels_in, unwrap_numbers};
ghost use Rattle.encapsulation.specs.Making.{Fronts, answer_of, head_of};

use frame::{Frame, Header, WriteNumbers};
use refusal::Refusal;

// The message type of Network Encapsulation.
pub const ENCAPSULATION: u8 = 0x7E;

// How many levels there may be.
pub const MOST: usize = 4;

// One level: its code and operands, and the packet number of the message that holds them.
#[repr(C)]
#[derive(Clone, Copy, Default)]
pub struct Level {
    pub code: u8,
    pub operand1: u8,
    pub operand2: u8,
    pub operand3: u8,
    pub packet: u8,
}

// What is inside a frame: the levels, from the outermost on and blank from the depth on, how deep the plain message lies, its type and packet
// number, and its payload's length. Four levels and how many of them count: nothing is allocated, and C is given four.
#[derive(Clone, Copy)]
pub struct Unwrapped {
    pub levels: [Level; MOST],
    pub depth: usize,
    pub message: u8,
    pub packet: u8,
    pub length: usize,
}

// Four levels, for C, which hands no array over by value.
#[repr(C)]
#[derive(Clone, Copy, Default)]
pub struct Levels {
    pub levels: [Level; MOST],
}

// An unwrapping, as `nadrelgos_unwrap` tells C, which has no Result: the refusal's number or 0, how deep the plain message lies, its type and
// packet number, the levels, and where in the received bytes its payload stands.
#[repr(C)]
#[derive(Clone, Copy, Default)]
pub struct UnwrapNumbers {
    pub refusal: u8,
    pub depth: u8,
    pub message: u8,
    pub packet: u8,
    pub levels: Levels,
    pub start: usize,
    pub length: usize,
}

// Reads a message, with so many levels left: a plain one is what is looked for, an encapsulation holds another in its payload.
#[cycle(read_message_read_payload)]
fn read_message(left: usize, message: u8, packet: u8, payload: &[u8]) -> Result<Unwrapped, Refusal>
    requires { left ≤ 4 }
    ensures { result ≡ answer_of (opened left (record { message = message; packet = packet; payload = payload.now })) }
{
    if message != ENCAPSULATION {
        return Ok(Unwrapped {
            levels: [Level::default(); MOST],
            depth: 0,
            message,
            packet,
            length: payload.len(),
        });
    }
    if left == 0 {
        return Err(Refusal::TooDeep);
    }
    read_payload(left - 1, packet, payload)
}

// Reads the payload of an encapsulation, code, operands and one whole message, with so many levels left for that message.
#[cycle(read_message_read_payload)]
fn read_payload(left: usize, packet: u8, payload: &[u8]) -> Result<Unwrapped, Refusal>
    requires { left < 4 }
    ensures { result ≡ answer_of (opened_inside (opened left) packet payload.now) }
{
    let [code, op1, op2, op3, message, number, n, inner @ ..] = payload else {
        return Err(Refusal::BadInner);
    };
    if inner.len() != *n as usize {
        return Err(Refusal::BadInner);
    }
    let plain = read_message(left, *message, *number, inner)?;
    let level = Level {
        code: *code,
        operand1: *op1,
        operand2: *op2,
        operand3: *op3,
        packet,
    };
    let [first, second, third, _] = plain.levels;
    Ok(Unwrapped {
        levels: [level, first, second, third],
        depth: plain.depth + 1,
        ..plain
    })
}

// Unwraps received bytes: reads them as one whole frame that a system with our subnet takes, and goes in to the plain message.
pub fn unwrap(ours: u8, bytes: &[u8]) -> Result<Unwrapped, Refusal>
    ensures told { told_inside result ≡ told_opened (unwrapping ours bytes.now) }
    ensures levels { IfOk result (λ unwrapped. unwrapped.levels ≡ levels_in (unwrapping ours bytes.now)) }
{
    let Frame { header, length } = frame::read(ours, bytes)?;
    let end = 10 + length;
    read_message(MOST, header.message, header.packet, &bytes[10..end])
}

// The plain message's payload, as a part of the received bytes; empty where there is none.
pub fn inner_payload(ours: u8, bytes: &[u8]) -> &[u8]
    ensures { result.now ≡ payload_in (unwrapping ours bytes.now) }
{
    match unwrap(ours, bytes) {
        Ok(plain) => {
            let start = 10 + 7 * plain.depth;
            let end = start + plain.length;
            &bytes[start..end]
        }
        Err(_) => &bytes[..0],
    }
}

// What stands before the payload of a message of this type, packet number and payload length in one level.
fn head_of(level: Level, message: u8, packet: u8, n: u8) -> [u8; 7]
    ensures { result ≡ head_of level message packet n }
{
    [
        level.code,
        level.operand1,
        level.operand2,
        level.operand3,
        message,
        packet,
        n,
    ]
}

// What a message in levels begins with: the bytes before the plain payload, in room for four levels since nothing is allocated, and the outermost
// message's type and packet number.
#[derive(Clone, Copy)]
struct Front {
    bytes: [u8; 28],
    message: u8,
    packet: u8,
}

// Wraps the message of a frame in these levels, from the innermost outwards.
fn front_of(header: Header, levels: &[Level], payload: &[u8]) -> Front
    requires depth_bound { length levels.now ≤ 4 }
    requires payload_bound { 7 * length levels.now + length payload.now ≤ 240 }
    ensures { Fronts result (length levels.now) levels.now (sent header payload.now) }
{
    let mut front = Front {
        bytes: [0; 28],
        message: header.message,
        packet: header.packet,
    };
    let mut n = payload.len();
    // By index: the proof is over the level from which the message is wrapped, and `enumerate().rev()` shows it only in what the iterator has left.
    for at in (0..levels.len()).rev() {
        let level = levels[at];
        let head = head_of(level, front.message, front.packet, n as u8);
        ground::lay(&mut front.bytes, 7 * at, &head);
        front.message = ENCAPSULATION;
        front.packet = level.packet;
        n += 7;
    }
    front
}

// Writes a frame at the front of out that carries the message of this header and payload in the first of the levels, as many as the depth says.
// Levels and depth stay apart, as `nadrelgos_wrap` is handed them: a depth above four is refused here.
pub fn wrap(
    header: Header,
    levels: [Level; MOST],
    depth: usize,
    payload: &[u8],
    out: &mut [u8],
) -> Result<usize, Refusal>
    ensures { (told_written result ≡ wrapping header levels depth payload.now (length out.old)) × (out.new ≡ laid (wrapped_bytes header levels depth payload.now (length out.old)) out.old) }
{
    if MOST < depth || header.message == ENCAPSULATION {
        return Err(Refusal::TooDeep);
    }
    let m = 7 * depth;
    if 240 - m < payload.len() {
        return Err(Refusal::PayloadTooLong);
    }
    let front = front_of(header, &levels[..depth], payload);
    let outer = Header {
        message: front.message,
        packet: front.packet,
        ..header
    };
    frame::write_parts(outer, &front.bytes[..m], payload, out)
}

// What `unwrap` finds, for C.
pub fn nadrelgos_unwrap(ours: u8, received: &[u8]) -> UnwrapNumbers
    ensures { result ≡ unwrap_numbers (unwrapping ours received.now) }
{
    match unwrap(ours, received) {
        Ok(plain) => {
            let levels = plain.levels;
            UnwrapNumbers {
                refusal: 0,
                depth: plain.depth as u8,
                message: plain.message,
                packet: plain.packet,
                levels: Levels { levels },
                start: 10 + 7 * plain.depth,
                length: plain.length,
            }
        }
        Err(refusal) => UnwrapNumbers {
            refusal: refusal::number(refusal),
            ..UnwrapNumbers::default()
        },
    }
}

// `wrap` for C.
pub fn nadrelgos_wrap(
    header: Header,
    levels: Levels,
    depth: usize,
    payload: &[u8],
    out: &mut [u8],
) -> WriteNumbers
    ensures { (result ≡ write_numbers (wrapping header levels.levels depth payload.now (length out.old))) × (out.new ≡ laid (wrapped_bytes header levels.levels depth payload.now (length out.old)) out.old) }
{
    let around = levels.levels;
    frame::numbers_of(wrap(header, around, depth, payload, out))
}
