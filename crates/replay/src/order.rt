// What a line asks for, read off its words before anything is played.
use script::{ANY, Line};
use steps::Event;

// What a line asks for. The addresses and the frame stand in the bytes that were lent to the reader.
#[derive(Clone, Copy)]
pub(crate) enum Order<'a> {
    Pass,
    Setup {
        subnet: u8,
        internal: u8,
        mac: u64,
        session: u64,
        addresses: &'a [u8],
    },
    Step {
        event: Event,
        room: usize,
        received: &'a [u8],
    },
    Table,
}

// The addresses up to the end of the line, as many as there is room for; further ones are only looked at.
fn read_addresses<'a>(mut line: Line<'_>, bytes: &'a mut [u8]) -> Option<&'a [u8]> {
    // The words go on past the room, so that no loop over its places fits.
    let mut n = 0;
    while !line.is_over() {
        let address = line.byte()?;
        if let Some(place) = bytes.get_mut(n) {
            *place = address;
            n += 1;
        }
    }
    Some(&bytes[..n])
}

// setup SUBNET INTERNAL MAC SESSION ADDRESS...
fn read_setup<'a>(mut line: Line<'_>, bytes: &'a mut [u8]) -> Option<Order<'a>> {
    Some(Order::Setup {
        subnet: line.byte()?,
        internal: line.byte()?,
        mac: line.number(ANY)?,
        session: line.number(ANY)?,
        addresses: read_addresses(line, bytes)?,
    })
}

// What a line asks for whose last word has been read.
fn last<'a>(line: Line<'_>, order: Order<'a>) -> Option<Order<'a>> {
    line.is_over().then_some(order)
}

// A step that nothing was received for.
fn plain_step<'a>(event: Event, room: usize) -> Order<'a> {
    Order::Step {
        event,
        room,
        received: &[],
    }
}

// join TYPE MAC SESSION VERSION
fn read_join<'a>(mut line: Line<'_>) -> Option<Order<'a>> {
    let event = Event::Join {
        kind: line.byte()?,
        mac: line.number(ANY)?,
        session: line.number(ANY)?,
        version: line.byte()?,
    };
    last(line, plain_step(event, 0))
}

// turn ROOM, discover ROOM
fn read_turn<'a>(mut line: Line<'_>, event: Event) -> Option<Order<'a>> {
    let room = line.room()?;
    last(line, plain_step(event, room))
}

// frame ROOM HEX
fn read_frame<'a>(mut line: Line<'_>, bytes: &'a mut [u8]) -> Option<Order<'a>> {
    let room = line.room()?;
    let n = script::bytes_from(line.text, line.at, bytes)?;
    Some(Order::Step {
        event: Event::Frame,
        room,
        received: &bytes[..n],
    })
}

// What a line asks for, or none where it is a bad one; one that is passed over asks for nothing.
pub(crate) fn read_line<'a>(text: &[u8], bytes: &'a mut [u8]) -> Option<Order<'a>> {
    if script::is_passed(text) {
        return Some(Order::Pass);
    }
    let mut line = Line { text, at: 0 };
    match line.word()? {
        word if script::same(word, b"setup") => read_setup(line, bytes),
        word if script::same(word, b"join") => read_join(line),
        word if script::same(word, b"turn") => read_turn(line, Event::Turn),
        word if script::same(word, b"discover") => read_turn(line, Event::Discover),
        word if script::same(word, b"frame") => read_frame(line, bytes),
        word if script::same(word, b"quiet") => last(line, plain_step(Event::Quiet, 0)),
        word if script::same(word, b"table") => last(line, Order::Table),
        _ => None,
    }
}
