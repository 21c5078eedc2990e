// Runs the rule book's cases of frame and finder ("Frames and series to try") and prints a line a case.
#![tactic(auto)]

use finder::Finding;
use frame::{Frame, Header};
use refusal::Refusal;
use std::io;
use std::io::{BufWriter, Write};

// The subnet in which the cases are read, but where one says another.
const SUBNET: u8 = 3;

fn print_bytes<W: Write>(to: &mut W, bytes: &[u8]) -> io::Result<()> {
    for b in bytes {
        to.write_all(b" ")?;
        console::write_hex(to, *b)?;
    }
    Ok(())
}

fn print_refusal<W: Write>(to: &mut W, refusal: Refusal) -> io::Result<()> {
    write!(to, " refused {}", refusal::number(refusal))
}

fn print_reading<W: Write>(to: &mut W, reading: Result<Frame, Refusal>) -> io::Result<()> {
    match reading {
        Ok(Frame { header, length }) => {
            let destination = header.destination;
            write!(to, " frame to {destination}, payload length {length}")
        }
        Err(refusal) => print_refusal(to, refusal),
    }
}

fn print_writing<W: Write>(to: &mut W, writing: Result<usize, Refusal>) -> io::Result<()> {
    match writing {
        Ok(count) => write!(to, " written {count}"),
        Err(refusal) => print_refusal(to, refusal),
    }
}

fn print_finding<W: Write>(to: &mut W, finding: Finding) -> io::Result<()> {
    match finding {
        Finding::Found {
            start,
            length,
            tried,
        } => write!(to, " found {start} {length} {tried}"),
        Finding::Nothing(tried) => write!(to, " nothing {tried}"),
        Finding::Spent(tried) => write!(to, " spent {tried}"),
    }
}

fn check_case<W: Write>(to: &mut W, label: &str, body: &[u8]) -> io::Result<()> {
    write!(to, "{label}")?;
    print_bytes(to, &fletcher::check_bytes(body))?;
    writeln!(to)
}

// Prints what is read in a subnet, and the payload.
fn read_in<W: Write>(to: &mut W, label: &str, ours: u8, bytes: &[u8]) -> io::Result<()> {
    write!(to, "{label}")?;
    print_reading(to, frame::read(ours, bytes))?;
    write!(to, ", payload:")?;
    print_bytes(to, frame::payload(ours, bytes))?;
    writeln!(to)
}

fn read_case<W: Write>(to: &mut W, label: &str, bytes: &[u8]) -> io::Result<()> {
    read_in(to, label, SUBNET, bytes)
}

// Prints what writing did, and all of the lent bytes as they are afterwards.
fn print_written<W: Write>(
    to: &mut W,
    writing: Result<usize, Refusal>,
    out: &[u8],
) -> io::Result<()> {
    print_writing(to, writing)?;
    write!(to, ", out:")?;
    print_bytes(to, out)?;
    writeln!(to)
}

// Writes into the lent bytes, and the same from a ready header into those lent beside them.
fn write_case<W: Write>(
    to: &mut W,
    label: &str,
    payload: &[u8],
    out: &mut [u8],
    beside: &mut [u8],
) -> io::Result<()> {
    let header = Header {
        destination: 2,
        source: 255,
        subnet: 3,
        kind: 165,
        ..Header::default()
    };
    write!(to, "{label}")?;
    let writing = frame::write(header, payload, out);
    print_written(to, writing, out)?;
    write!(to, "   ready:")?;
    let writing = frame::write_ready(frame::prepare(header), payload, beside);
    print_written(to, writing, beside)
}

// Prints the finding: found with start, length and starts tried; nothing or spent with starts tried.
fn find_case<W: Write>(to: &mut W, label: &str, bytes: &[u8], budget: usize) -> io::Result<()> {
    write!(to, "{label}")?;
    print_finding(to, finder::find(SUBNET, bytes, budget))?;
    writeln!(to)
}

fn check_cases<W: Write>(to: &mut W) -> io::Result<()> {
    check_case(
        to,
        "check bytes of 02 ff 03 00 00 00 a5 00 00 00:",
        b"\x02\xff\x03\x00\x00\x00\xa5\x00\x00\x00",
    )?;
    check_case(
        to,
        "check bytes of ten zeros:",
        b"\x00\x00\x00\x00\x00\x00\x00\x00\x00\x00",
    )?;
    check_case(
        to,
        "check bytes of 00 00 00 00 00 11 00 00 00 00:",
        b"\x00\x00\x00\x00\x00\x11\x00\x00\x00\x00",
    )?;
    check_case(
        to,
        "check bytes of ff 00 00 00 00 11 00 00 00 00:",
        b"\xff\x00\x00\x00\x00\x11\x00\x00\x00\x00",
    )
}

fn good_cases<W: Write>(to: &mut W) -> io::Result<()> {
    read_case(
        to,
        "the first case, read:",
        b"\x02\xff\x03\x00\x00\x00\xa5\x00\x00\x00\x3d\x6d",
    )?;
    read_case(
        to,
        "44 ff, read:",
        b"\x00\x00\x00\x00\x00\x11\x00\x00\x00\x00\x44\xff",
    )?;
    read_case(
        to,
        "44 00, read:",
        b"\x00\x00\x00\x00\x00\x11\x00\x00\x00\x00\x44\x00",
    )?;
    read_case(
        to,
        "2 bytes of payload, read:",
        b"\x02\xff\x03\x00\x00\x00\xa5\x00\x00\x02\x06\x07\x6a\x31",
    )
}

fn refused_cases<W: Write>(to: &mut W) -> io::Result<()> {
    read_case(
        to,
        "11 bytes:",
        b"\x02\xff\x03\x00\x00\x00\xa5\x00\x00\x00\x3d",
    )?;
    let mut long = [0u8; 253];
    long[9] = 241;
    read_case(to, "n = 241 in 253 bytes:", &long)?;
    read_case(
        to,
        "n = 1 in 12 bytes:",
        b"\x02\xff\x03\x00\x00\x00\xa5\x00\x00\x01\x3d\x6d",
    )?;
    read_case(
        to,
        "the first case with last byte 6e:",
        b"\x02\xff\x03\x00\x00\x00\xa5\x00\x00\x00\x3d\x6e",
    )
}

// A frame is read in its own subnet, and with 0 in every one; 24 comes after 4.
fn subnet_cases<W: Write>(to: &mut W) -> io::Result<()> {
    read_in(
        to,
        "the first case, read in subnet 4:",
        4,
        b"\x02\xff\x03\x00\x00\x00\xa5\x00\x00\x00\x3d\x6d",
    )?;
    read_in(
        to,
        "the first case, read in subnet 0:",
        0,
        b"\x02\xff\x03\x00\x00\x00\xa5\x00\x00\x00\x3d\x6d",
    )?;
    read_in(
        to,
        "the first case with last byte 6e, read in subnet 4:",
        4,
        b"\x02\xff\x03\x00\x00\x00\xa5\x00\x00\x00\x3d\x6e",
    )?;
    read_in(
        to,
        "2 bytes of payload, read in subnet 4:",
        4,
        b"\x02\xff\x03\x00\x00\x00\xa5\x00\x00\x02\x06\x07\x6a\x31",
    )?;
    read_in(
        to,
        "44 ff, whose subnet is 0, read in subnet 4:",
        4,
        b"\x00\x00\x00\x00\x00\x11\x00\x00\x00\x00\x44\xff",
    )
}

// The lent bytes are all aa before.
fn write_cases<W: Write>(to: &mut W) -> io::Result<()> {
    let mut out = [170u8; 16];
    let mut beside = [170u8; 16];
    write_case(
        to,
        "241 bytes of payload in room 16:",
        &[7; 241],
        &mut out,
        &mut beside,
    )?;
    let mut short = [170u8; 13];
    let mut short_beside = [170u8; 13];
    write_case(
        to,
        "2 bytes of payload in room 13:",
        b"\x06\x07",
        &mut short,
        &mut short_beside,
    )?;
    write_case(
        to,
        "2 bytes of payload in room 16:",
        b"\x06\x07",
        &mut out,
        &mut beside,
    )
}

fn tries_none_cases<W: Write>(to: &mut W) -> io::Result<()> {
    find_case(to, "empty, budget 0:", b"", 0)?;
    find_case(to, "empty, budget 2^64 - 1:", b"", usize::MAX)?;
    find_case(
        to,
        "11 bytes, budget 0:",
        b"\x02\xff\x03\x00\x00\x00\xa5\x00\x00\x00\x3d",
        0,
    )?;
    find_case(
        to,
        "12 bytes, budget 0:",
        b"\x02\xff\x03\x00\x00\x00\xa5\x00\x00\x00\x3d\x6d",
        0,
    )
}

fn find_cases<W: Write>(to: &mut W) -> io::Result<()> {
    find_case(
        to,
        "a frame, budget 2^64 - 1:",
        b"\x02\xff\x03\x00\x00\x00\xa5\x00\x00\x00\x3d\x6d",
        usize::MAX,
    )?;
    find_case(
        to,
        "no frame in 12 bytes, budget 1:",
        b"\x55\x02\xff\x03\x00\x00\x00\xa5\x00\x00\x00\x3d",
        1,
    )?;
    find_case(
        to,
        "a frame at start 1, budget 1:",
        b"\x55\x02\xff\x03\x00\x00\x00\xa5\x00\x00\x00\x3d\x6d",
        1,
    )?;
    find_case(
        to,
        "a frame at start 1, budget 2:",
        b"\x55\x02\xff\x03\x00\x00\x00\xa5\x00\x00\x00\x3d\x6d",
        2,
    )
}

// A frame of another subnet is passed over, and one of ours in its payload is found.
fn other_cases<W: Write>(to: &mut W) -> io::Result<()> {
    find_case(
        to,
        "a frame of subnet 4, budget 2^64 - 1:",
        b"\x02\xff\x04\x00\x00\x00\xa5\x00\x00\x00\x34\x75",
        usize::MAX,
    )?;
    find_case(
        to,
        "a frame of ours in the payload of one of subnet 4, budget 10:",
        b"\x02\xff\x04\x00\x00\x00\xa5\x00\x00\x0c\x02\xff\x03\x00\x00\x00\xa5\x00\x00\x00\x3d\x6d\x2a\x1e",
        10,
    )?;
    find_case(
        to,
        "the same, budget 11:",
        b"\x02\xff\x04\x00\x00\x00\xa5\x00\x00\x0c\x02\xff\x03\x00\x00\x00\xa5\x00\x00\x00\x3d\x6d\x2a\x1e",
        11,
    )
}

fn main(rt: HostRuntime) -> io::Result<()> {
    let mut to = BufWriter::new(rt.alloc(), io::writer(&rt))?;
    check_cases(&mut to)?;
    good_cases(&mut to)?;
    refused_cases(&mut to)?;
    subnet_cases(&mut to)?;
    write_cases(&mut to)?;
    tries_none_cases(&mut to)?;
    find_cases(&mut to)?;
    other_cases(&mut to)?;
    to.flush()
}
