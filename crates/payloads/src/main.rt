// Plays payloads and messages inside messages that are read and written, and shared data that is stored and served, a line at a time, and
// answers each line (docs/PAYLOADS.md has the lines).
#![tactic(auto)]

mod answer;
mod images;
mod levels;
mod order;

use images::Images;
use order::{Order, Written};
use refusal::Refusal;
use std::io;
use std::io::{BufWriter, Write};

// read-display, answered.
fn read_display<W: Write>(to: &mut W, payload: &[u8]) -> io::Result<()> {
    match display::read_display(payload) {
        Ok(message) => answer::display(to, message.kind, display::display_text(payload)),
        Err(refusal) => answer::refused(to, refusal),
    }
}

// read-diagnostics, answered.
fn read_diagnostics<W: Write>(to: &mut W, payload: &[u8]) -> io::Result<()> {
    match display::read_diagnostics(payload) {
        Ok(fault) => answer::diagnostics(to, fault, display::diagnostics_text(payload)),
        Err(refusal) => answer::refused(to, refusal),
    }
}

// unwrap, answered.
fn unwrap<W: Write>(to: &mut W, subnet: u8, frame: &[u8]) -> io::Result<()> {
    match encapsulation::unwrap(subnet, frame) {
        Ok(inside) => {
            let payload = encapsulation::inner_payload(subnet, frame);
            answer::plain(to, inside, payload)
        }
        Err(refusal) => answer::refused(to, refusal),
    }
}

// Writes into out what a line wants written of these bytes.
fn writing_of(what: Written, bytes: &[u8], out: &mut [u8]) -> Result<usize, Refusal> {
    match what {
        Written::Display { kind } => display::write_display(kind, bytes, out),
        Written::Diagnostics { kind, major, minor } => {
            display::write_diagnostics(kind, major, minor, bytes, out)
        }
        Written::Wrap {
            header,
            levels,
            depth,
        } => encapsulation::wrap(header, levels, depth, bytes, out),
    }
}

// The same with this much room, answered.
fn write<W: Write>(to: &mut W, room: usize, what: Written, bytes: &[u8]) -> io::Result<()> {
    let mut out = [0; 1024];
    let n = script::within(room, &out);
    let out = &mut out[..n];
    let writing = writing_of(what, bytes, out);
    answer::written(to, writing, out)
}

// Plays one line and answers it.
fn play_line<W: Write>(
    to: &mut W,
    images: &mut Images,
    number: u64,
    line: &[u8],
) -> io::Result<()> {
    let mut bytes = [0; 1024];
    match order::read_line(line, &mut bytes) {
        Some(Order::Pass) => Ok(()),
        Some(Order::ReadDisplay { payload }) => read_display(to, payload),
        Some(Order::ReadDiagnostics { payload }) => read_diagnostics(to, payload),
        Some(Order::Unwrap { subnet, frame }) => unwrap(to, subnet, frame),
        Some(Order::Write { room, what, bytes }) => write(to, room, what, bytes),
        Some(Order::Shared(asked)) => images.play(to, asked, number),
        None => answer::bad(to, number),
    }
}

// Plays the lines from first to last.
fn play<W: Write>(to: &mut W, lines: &[u8]) -> io::Result<()> {
    let mut images = Images::blank();
    // The loop is each program's own: shared, it would take the program's step as a closure, and be no plainer than these lines.
    let mut number = 0;
    let mut at = 0;
    while let Some((line, next)) = script::line_at(lines, at) {
        number += 1;
        play_line(to, &mut images, number, line)?;
        at = next;
    }
    Ok(())
}

// Room for the longest script, on the stack: the program asks for no memory but its writer's.
fn blank_script() -> [u8; script::LONGEST] {
    [0; script::LONGEST]
}

fn main(rt: HostRuntime) -> io::Result<()> {
    let mut input = blank_script();
    let n = console::read_full(&mut rt.reader(), &mut input)?;
    let mut to = BufWriter::new(rt.alloc(), io::writer(&rt))?;
    play(&mut to, &input[..n])?;
    to.flush()
}
