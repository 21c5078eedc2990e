// The CT-485 frame: its fields, the reader and the writer.
#![tactic(auto)]

ghost use Rattle.std.specs.Prelude.{◌≡◌, ◌++◌, ◌∷◌, [], ◌-◌, ◌≤◌, length};
ghost use Rattle.ground.specs.Bytes.{laid};
ghost use Rattle.frame.specs.Frame.{fields, header_of, begun, takes_subnet, told, reading, payload_of, told_written, writing, written_bytes, write_numbers};
ghost use Rattle.frame.specs.ReadyHeader.{ready_of, ready_bytes, closed_bytes};

use fletcher::Sums;
use refusal::Refusal;

// The nine bytes before the payload length, in the order of the wire.
#[repr(C)]
#[derive(Clone, Copy, Default)]
pub struct Header {
    pub destination: u8,
    pub source: u8,
    pub subnet: u8,
    pub method: u8,
    pub parameter1: u8,
    pub parameter2: u8,
    pub kind: u8,
    pub message: u8,
    pub packet: u8,
}

// A ready header: the nine fields and the sums over them, each below 255 where `prepare` made it.
#[repr(C)]
#[derive(Clone, Copy)]
pub struct Ready {
    pub header: Header,
    pub first: u8,
    pub second: u8,
}

// A frame that was read: its header, and how long its payload is.
#[derive(Clone, Copy)]
pub struct Frame {
    pub header: Header,
    pub length: usize,
}

// A writing, for C: the refusal's number or 0, and the count of bytes written.
#[repr(C)]
#[derive(Clone, Copy)]
pub struct WriteNumbers {
    pub refusal: u8,
    pub written: usize,
}

fn header_of(bytes: &[u8]) -> Header
    requires { 12 ≤ length bytes.now }
    ensures { result ≡ header_of bytes.now }
{
    Header {
        destination: bytes[0],
        source: bytes[1],
        subnet: bytes[2],
        method: bytes[3],
        parameter1: bytes[4],
        parameter2: bytes[5],
        kind: bytes[6],
        message: bytes[7],
        packet: bytes[8],
    }
}

// Whether a system takes a frame with this subnet: its own is taken, and 0, everybody's.
pub fn takes_subnet(ours: u8, subnet: u8) -> bool
    ensures { result ≡ takes_subnet ours subnet }
{
    (subnet == ours) | (subnet == 0)
}

// Reads bytes as one whole frame that a system with our subnet takes.
pub fn read(ours: u8, bytes: &[u8]) -> Result<Frame, Refusal>
    ensures { told result ≡ reading ours bytes.now }
{
    if bytes.len() < 12 {
        return Err(Refusal::Short);
    }
    let n = bytes[9] as usize;
    if 240 < n {
        return Err(Refusal::OverLong);
    }
    if bytes.len() != 12 + n {
        return Err(Refusal::LengthMismatch);
    }
    if !fletcher::good(bytes) {
        return Err(Refusal::BadChecksum);
    }
    let header = header_of(bytes);
    if !takes_subnet(ours, header.subnet) {
        return Err(Refusal::OtherSubnet);
    }
    Ok(Frame { header, length: n })
}

// The payload of a frame, as a part of its bytes; empty where they are no frame that a system with our subnet takes.
pub fn payload(ours: u8, bytes: &[u8]) -> &[u8]
    ensures { result.now ≡ payload_of ours bytes.now }
{
    match read(ours, bytes) {
        Ok(frame) => {
            let end = 10 + frame.length;
            &bytes[10..end]
        }
        Err(_) => &bytes[..0],
    }
}

// The ten bytes before the payload.
fn head(header: Header, n: u8) -> [u8; 10]
    ensures { result ≡ fields header ++ n ∷ [] }
{
    [
        header.destination,
        header.source,
        header.subnet,
        header.method,
        header.parameter1,
        header.parameter2,
        header.kind,
        header.message,
        header.packet,
        n,
    ]
}

// Writes a frame at the front of out. The first m bytes of its payload stand there already, and the sums over its bytes before `from` are given, so
// that only those from there on are summed.
fn written(
    header: Header,
    before: Sums,
    from: usize,
    m: usize,
    rest: &[u8],
    out: &mut [u8],
) -> Result<usize, Refusal>
    requires { (from ≤ 10) × ((m ≤ 240) × (m ≤ length out.old - 10)) }
    ensures { (told_written result ≡ writing (begun m out.old ++ rest.now) (length out.old)) × (out.new ≡ laid (closed_bytes header before from (begun m out.old ++ rest.now) (length out.old)) out.old) }
{
    if 240 - m < rest.len() {
        return Err(Refusal::PayloadTooLong);
    }
    let n = m + rest.len();
    if out.len() < 12 + n {
        return Err(Refusal::NoRoom);
    }
    let front = head(header, n as u8);
    ground::lay(out, 0, &front);
    ground::lay(out, 10 + m, rest);
    let end = 10 + n;
    let check = fletcher::check_after(before, &out[from..end]);
    ground::lay(out, end, &check);
    Ok(12 + n)
}

// Writes a frame with this header and payload at the front of out.
pub fn write(header: Header, payload: &[u8], out: &mut [u8]) -> Result<usize, Refusal>
    ensures { (told_written result ≡ writing payload.now (length out.old)) × (out.new ≡ laid (written_bytes header payload.now (length out.old)) out.old) }
{
    written(header, fletcher::seed(), 0, 0, payload, out)
}

// Writes a frame whose payload is these two parts, one after the other, at the front of out: what stands apart need not be brought together first.
pub fn write_parts(
    header: Header,
    front: &[u8],
    rest: &[u8],
    out: &mut [u8],
) -> Result<usize, Refusal>
    ensures { (told_written result ≡ writing (front.now ++ rest.now) (length out.old)) × (out.new ≡ laid (written_bytes header (front.now ++ rest.now) (length out.old)) out.old) }
{
    let m = front.len();
    if 240 < m || 240 - m < rest.len() {
        return Err(Refusal::PayloadTooLong);
    }
    if out.len() < 12 + m + rest.len() {
        return Err(Refusal::NoRoom);
    }
    ground::lay(out, 10, front);
    written(header, fletcher::seed(), 0, m, rest, out)
}

// The numbers by which C is told a writing, whichever writer's.
pub fn numbers_of(answer: Result<usize, Refusal>) -> WriteNumbers
    ensures { result ≡ write_numbers (told_written answer) }
{
    match answer {
        Ok(written) => WriteNumbers {
            refusal: 0,
            written,
        },
        Err(refusal) => WriteNumbers {
            refusal: refusal::number(refusal),
            written: 0,
        },
    }
}

// Makes a header ready: its fields, the first nine bytes of any head, are summed here once for all frames written from it.
pub fn prepare(header: Header) -> Ready
    ensures { result ≡ ready_of header }
{
    let front = head(header, 0);
    let s = fletcher::sums_over(&front[..9]);
    Ready {
        header,
        first: s.first as u8,
        second: s.second as u8,
    }
}

// Writes a frame with a ready header and this payload at the front of out: only the length byte and the payload are summed.
pub fn write_ready(ready: Ready, payload: &[u8], out: &mut [u8]) -> Result<usize, Refusal>
    ensures { (told_written result ≡ writing payload.now (length out.old)) × (out.new ≡ laid (ready_bytes ready payload.now (length out.old)) out.old) }
{
    let header = ready.header;
    let kept = Sums {
        first: ready.first as u32,
        second: ready.second as u32,
    };
    written(header, kept, 9, 0, payload, out)
}
