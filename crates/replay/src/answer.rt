// What is written for a line of the script.
use board::{Node, Table};
use coordinator::Exchange;
use refusal::Refusal;
use setup::Setup;
use std::io;
use std::io::Write;
use steps::{Answer, Outcome, Seek};

// A line of words, and how many bytes there are, and the bytes.
fn write_bytes<W: Write>(to: &mut W, words: &str, bytes: &[u8]) -> io::Result<()> {
    write!(to, "{words} ")?;
    script::write_counted(to, bytes)?;
    writeln!(to)
}

// refuse N
fn refused<W: Write>(to: &mut W, refusal: Refusal) -> io::Result<()> {
    script::write_refused(to, refusal::number(refusal))
}

// ready K
pub(crate) fn started<W: Write>(to: &mut W, outcome: Outcome, k: usize) -> io::Result<()> {
    if let Answer::Refuse(refusal) = outcome.answer {
        refused(to, refusal)
    } else {
        writeln!(to, "ready {k}")
    }
}

// wait P offer|list|forward|return COUNT HEX
fn waiting<W: Write>(to: &mut W, board: usize, exchange: Exchange, bytes: &[u8]) -> io::Result<()> {
    let name = match exchange {
        Exchange::Offer => "offer",
        Exchange::List => "list",
        Exchange::Forward => "forward",
        Exchange::Return => "return",
    };
    write!(to, "wait {board} ")?;
    write_bytes(to, name, bytes)
}

// wait P search|identify|assign COUNT HEX
fn seeking<W: Write>(to: &mut W, position: usize, seek: Seek, bytes: &[u8]) -> io::Result<()> {
    let name = match seek {
        Seek::Search => "search",
        Seek::Identify => "identify",
        Seek::Assign => "assign",
    };
    write!(to, "wait {position} ")?;
    write_bytes(to, name, bytes)
}

// transmit COUNT HEX, transmit COUNT HEX joined P
fn transmitting<W: Write>(to: &mut W, joined: usize, bytes: &[u8]) -> io::Result<()> {
    write!(to, "transmit ")?;
    script::write_counted(to, bytes)?;
    if 0 < joined {
        write!(to, " joined {joined}")?;
    }
    writeln!(to)
}

// rest, rest joined P, rest dropped P
fn resting<W: Write>(to: &mut W, joined: usize, dropped: usize) -> io::Result<()> {
    if 0 < joined {
        writeln!(to, "rest joined {joined}")
    } else if 0 < dropped {
        writeln!(to, "rest dropped {dropped}")
    } else {
        writeln!(to, "rest")
    }
}

// The answer of a step, with the bytes that it wrote.
pub(crate) fn stepped<W: Write>(to: &mut W, outcome: Outcome, bytes: &[u8]) -> io::Result<()> {
    match outcome.answer {
        Answer::Wait(board, exchange) => waiting(to, board, exchange, bytes),
        Answer::Seek(position, seek) => seeking(to, position, seek, bytes),
        Answer::Deliver => write_bytes(to, "deliver", bytes),
        Answer::Transmit => transmitting(to, outcome.joined, bytes),
        Answer::Rest => resting(to, outcome.joined, outcome.dropped),
        Answer::Refuse(refusal) => refused(to, refusal),
    }
}

// POSITION ADDRESS TYPE MAC SESSION MISSES OWED INDEX VERSION
fn record<W: Write>(to: &mut W, position: usize, address: u8, node: Node) -> io::Result<()> {
    let Node {
        kind,
        mac,
        session,
        misses,
        owed,
        index,
        version,
    } = node;
    writeln!(
        to,
        "{position} {address} {kind} {mac} {session} {misses} {owed} {index} {version}"
    )
}

// listed N, then a line for each board.
pub(crate) fn listing<W: Write>(to: &mut W, setup: Setup, table: &Table) -> io::Result<()> {
    let listed = table.nodes.iter().filter(|node| node.kind != 0).count();
    writeln!(to, "listed {listed}")?;
    for (i, node) in table.nodes.iter().enumerate() {
        if node.kind != 0 {
            let position = i + 1;
            record(to, position, setup::address_at(setup, position), *node)?;
        }
    }
    Ok(())
}
