// What is written for a line.
use display::Fault;
use encapsulation::{Level, Unwrapped};
use refusal::Refusal;
use std::io;
use std::io::Write;

// COUNT HEX, and the line's end
fn write_bytes<W: Write>(to: &mut W, bytes: &[u8]) -> io::Result<()> {
    script::write_counted(to, bytes)?;
    writeln!(to)
}

// A line of words and a number: in pieces, since by one `writeln!` a script of short lines takes a tenth more instructions.
fn write_number<W: Write>(to: &mut W, words: &[u8], n: u64) -> io::Result<()> {
    to.write_all(words)?;
    console::write_decimal(to, n)?;
    to.write_all(b"\n")
}

// bad line L
pub(crate) fn bad<W: Write>(to: &mut W, number: u64) -> io::Result<()> {
    write_number(to, b"bad line ", number)
}

// image COUNT
pub(crate) fn image<W: Write>(to: &mut W, size: usize) -> io::Result<()> {
    write_number(to, b"image ", size as u64)
}

// stored SLOT
pub(crate) fn stored<W: Write>(to: &mut W, slot: usize) -> io::Result<()> {
    write_number(to, b"stored ", slot as u64)
}

// none
pub(crate) fn none<W: Write>(to: &mut W) -> io::Result<()> {
    to.write_all(b"none\n")
}

// refuse N
pub(crate) fn refused<W: Write>(to: &mut W, refusal: Refusal) -> io::Result<()> {
    script::write_refused(to, refusal::number(refusal))
}

// display TYPE COUNT HEX
pub(crate) fn display<W: Write>(to: &mut W, kind: u8, text: &[u8]) -> io::Result<()> {
    write!(to, "display {kind} ")?;
    write_bytes(to, text)
}

// diagnostics TYPE MAJOR MINOR COUNT HEX
pub(crate) fn diagnostics<W: Write>(to: &mut W, fault: Fault, text: &[u8]) -> io::Result<()> {
    write!(
        to,
        "diagnostics {} {} {} ",
        fault.kind, fault.major, fault.minor
    )?;
    write_bytes(to, text)
}

// CODE OPERAND OPERAND OPERAND PACKET, behind a space
fn write_level<W: Write>(to: &mut W, level: Level) -> io::Result<()> {
    let Level {
        code,
        operand1,
        operand2,
        operand3,
        packet,
    } = level;
    write!(to, " {code} {operand1} {operand2} {operand3} {packet}")
}

// plain DEPTH, the levels, TYPE PACKET COUNT HEX
pub(crate) fn plain<W: Write>(to: &mut W, inside: Unwrapped, payload: &[u8]) -> io::Result<()> {
    write!(to, "plain {}", inside.depth)?;
    for level in inside.levels.iter().take(inside.depth) {
        write_level(to, *level)?;
    }
    write!(to, " {} {} ", inside.message, inside.packet)?;
    write_bytes(to, payload)
}

// wrote COUNT HEX: the bytes at the front of out
pub(crate) fn written<W: Write>(
    to: &mut W,
    writing: Result<usize, Refusal>,
    out: &[u8],
) -> io::Result<()> {
    match writing {
        Ok(count) => {
            let n = script::within(count, out);
            write!(to, "wrote ")?;
            write_bytes(to, &out[..n])
        }
        Err(refusal) => refused(to, refusal),
    }
}

// network COUNT HEX, or factory COUNT HEX
pub(crate) fn fetched<W: Write>(to: &mut W, image: &str, record: &[u8]) -> io::Result<()> {
    write!(to, "{image} ")?;
    write_bytes(to, record)
}
