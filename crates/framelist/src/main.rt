// Lists the frames in the first 4,096 bytes of standard input, a line each: start, destination, source, message type,
// payload length. Frames whose subnet is neither SUBNET nor 0 are passed over.
#![tactic(auto)]

ghost use Rattle.std.specs.Prelude.{◌≤◌, ◌<◌, length, IfSome};

use finder::Finding;
use frame::{Frame, Header};
use std::io;
use std::io::{BufWriter, Write};

// The subnet of the system whose frames are listed.
const SUBNET: u8 = 3;

// The line of the frame that stands at `start` of the input.
fn print_frame<W: Write>(to: &mut W, start: usize, frame: Frame) -> io::Result<()> {
    let Frame { header, length } = frame;
    let Header {
        destination,
        source,
        message,
        ..
    } = header;
    writeln!(to, "{start} {destination} {source} {message} {length}")
}

// Where the next frame begins and ends, from here on.
fn next_frame(bytes: &[u8], at: usize) -> Option<(usize, usize)>
    requires { at ≤ length bytes.now }
    ensures { IfSome result (λ place. (at ≤ place.0) × (place.0 < place.1) × (place.1 ≤ length bytes.now)) }
{
    match finder::find(SUBNET, &bytes[at..], bytes.len()) {
        Finding::Found { start, length, .. } => {
            let from = at + start;
            Some((from, from + length))
        }
        Finding::Nothing(_) | Finding::Spent(_) => None,
    }
}

// Goes on after each frame found, until no start holds one.
fn list_frames<W: Write>(to: &mut W, bytes: &[u8]) -> io::Result<()> {
    let mut at = 0;
    while let Some((start, end)) = next_frame(bytes, at) {
        if let Ok(found) = frame::read(SUBNET, &bytes[start..end]) {
            print_frame(to, start, found)?;
        }
        at = end;
    }
    Ok(())
}

fn main(rt: HostRuntime) -> io::Result<()> {
    let mut bytes = [0u8; 4096];
    let n = console::read_full(&mut rt.reader(), &mut bytes)?;
    let mut to = BufWriter::new(rt.alloc(), io::writer(&rt))?;
    list_frames(&mut to, &bytes[..n])?;
    to.flush()
}
