// What a line asks for, read off its words before anything is played; an image's bytes alone are read when it is (images.rt).
use crate::images::Asked;
use crate::levels::read_levels;
use encapsulation::{Level, MOST};
use frame::Header;
use script::{ANY, Line};

// What a line asks for. Payloads, texts, frames and records stand in the bytes that were lent to the reader.
#[derive(Clone, Copy)]
pub(crate) enum Order<'a> {
    Pass,
    ReadDisplay {
        payload: &'a [u8],
    },
    ReadDiagnostics {
        payload: &'a [u8],
    },
    Unwrap {
        subnet: u8,
        frame: &'a [u8],
    },
    Write {
        room: usize,
        what: Written,
        bytes: &'a [u8],
    },
    Shared(Asked<'a>),
}

// What is to be written.
#[derive(Clone, Copy)]
pub(crate) enum Written {
    Display {
        kind: u8,
    },
    Diagnostics {
        kind: u8,
        major: u8,
        minor: u8,
    },
    Wrap {
        header: Header,
        levels: [Level; MOST],
        depth: usize,
    },
}

// HEX, at the end of a line
fn read_hex<'a>(line: Line<'_>, bytes: &'a mut [u8]) -> Option<&'a [u8]> {
    let n = script::bytes_from(line.text, line.at, bytes)?;
    Some(&bytes[..n])
}

// ROOM TYPE HEX
fn write_display<'a>(mut line: Line<'_>, bytes: &'a mut [u8]) -> Option<Order<'a>> {
    Some(Order::Write {
        room: line.room()?,
        what: Written::Display { kind: line.byte()? },
        bytes: read_hex(line, bytes)?,
    })
}

// ROOM TYPE MAJOR MINOR HEX
fn write_diagnostics<'a>(mut line: Line<'_>, bytes: &'a mut [u8]) -> Option<Order<'a>> {
    Some(Order::Write {
        room: line.room()?,
        what: Written::Diagnostics {
            kind: line.byte()?,
            major: line.byte()?,
            minor: line.byte()?,
        },
        bytes: read_hex(line, bytes)?,
    })
}

// SUBNET HEX
fn unwrap<'a>(mut line: Line<'_>, bytes: &'a mut [u8]) -> Option<Order<'a>> {
    Some(Order::Unwrap {
        subnet: line.byte()?,
        frame: read_hex(line, bytes)?,
    })
}

// DESTINATION SOURCE SUBNET METHOD PARAMETER PARAMETER KIND; type and packet number follow later in the line.
fn read_header(line: &mut Line<'_>) -> Option<Header> {
    Some(Header {
        destination: line.byte()?,
        source: line.byte()?,
        subnet: line.byte()?,
        method: line.byte()?,
        parameter1: line.byte()?,
        parameter2: line.byte()?,
        kind: line.byte()?,
        message: 0,
        packet: 0,
    })
}

// ROOM, a header, DEPTH, so many levels, then TYPE PACKET HEX
fn wrap<'a>(mut line: Line<'_>, bytes: &'a mut [u8]) -> Option<Order<'a>> {
    let room = line.room()?;
    let routed = read_header(&mut line)?;
    let depth = line.number(ANY)? as usize;
    let levels = read_levels(&mut line, depth)?;
    let header = Header {
        message: line.byte()?,
        packet: line.byte()?,
        ..routed
    };
    Some(Order::Write {
        room,
        what: Written::Wrap {
            header,
            levels,
            depth,
        },
        bytes: read_hex(line, bytes)?,
    })
}

// network HEX, factory HEX
fn image<'a>(mut line: Line<'a>) -> Option<Asked<'a>> {
    match line.word()? {
        word if script::same(word, b"network") => Some(Asked::SetNetwork(line)),
        word if script::same(word, b"factory") => Some(Asked::SetFactory(line)),
        _ => None,
    }
}

// SECTOR HEX
fn store<'a>(mut line: Line<'_>, bytes: &'a mut [u8]) -> Option<Asked<'a>> {
    Some(Asked::Store {
        sector: line.byte()?,
        record: read_hex(line, bytes)?,
    })
}

// SECTOR
fn fetch<'a>(mut line: Line<'_>) -> Option<Asked<'a>> {
    let sector = line.byte()?;
    line.is_over().then_some(Asked::Fetch { sector })
}

// ROOM SECTOR
fn write_answer<'a>(mut line: Line<'_>) -> Option<Asked<'a>> {
    let room = line.room()?;
    let sector = line.byte()?;
    line.is_over().then_some(Asked::Answer { room, sector })
}

// What a line asks for, or none where it is a bad one; one that is passed over asks for nothing.
pub(crate) fn read_line<'a>(text: &'a [u8], bytes: &'a mut [u8]) -> Option<Order<'a>> {
    if script::is_passed(text) {
        return Some(Order::Pass);
    }
    let mut line = Line { text, at: 0 };
    match line.word()? {
        word if script::same(word, b"read-display") => Some(Order::ReadDisplay {
            payload: read_hex(line, bytes)?,
        }),
        word if script::same(word, b"write-display") => write_display(line, bytes),
        word if script::same(word, b"read-diagnostics") => Some(Order::ReadDiagnostics {
            payload: read_hex(line, bytes)?,
        }),
        word if script::same(word, b"write-diagnostics") => write_diagnostics(line, bytes),
        word if script::same(word, b"unwrap") => unwrap(line, bytes),
        word if script::same(word, b"wrap") => wrap(line, bytes),
        word if script::same(word, b"image") => image(line).map(Order::Shared),
        word if script::same(word, b"store") => store(line, bytes).map(Order::Shared),
        word if script::same(word, b"fetch") => fetch(line).map(Order::Shared),
        word if script::same(word, b"write-answer") => write_answer(line).map(Order::Shared),
        _ => None,
    }
}
