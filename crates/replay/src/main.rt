// Plays a script of steps on the panel, a line at a time, and answers each line (docs/REPLAY.md has the script's words).
#![tactic(auto)]

mod answer;
mod order;

use board::Table;
use coordinator::Coordinator;
use order::Order;
use setup::Setup;
use std::io;
use std::io::{BufWriter, Write};
use steps::Event;

// What the script plays on.
#[derive(Drop)]
struct World {
    coordinator: Coordinator,
    table: Table,
}

impl World {
    // Before the first setup: a record that is fit for nothing, so that every step answers 22. Not derived, as the columns of look are not.
    fn new() -> World {
        let setup = Setup {
            pool: [0; 40],
            k: 0,
            subnet: 0,
            internal: 0,
            mac: 0,
            session: 0,
        };
        World {
            coordinator: coordinator::fresh(setup),
            table: coordinator::blank_table(),
        }
    }

    // One step, with the bytes received and so much room for output, answered.
    fn step<W: Write>(
        &mut self,
        to: &mut W,
        event: Event,
        room: usize,
        received: &[u8],
    ) -> io::Result<()> {
        let mut out = [0; 1024];
        let n = script::within(room, &out);
        let out = &mut out[..n];
        let outcome = panel::step(
            &mut self.coordinator,
            &mut self.table.nodes,
            event,
            received,
            out,
        );
        let written = script::within(outcome.written, out);
        answer::stepped(to, outcome, &out[..written])
    }

    // Plays one line and answers it.
    fn play<W: Write>(&mut self, to: &mut W, number: u64, line: &[u8]) -> io::Result<()> {
        let mut bytes = [0; 1024];
        match order::read_line(line, &mut bytes) {
            Some(Order::Pass) => Ok(()),
            Some(
                Order::Setup {
                    subnet,
                    internal,
                    mac,
                    session,
                    addresses,
                },
            ) => {
                let outcome = panel::setup(
                    &mut self.coordinator,
                    &mut self.table.nodes,
                    addresses,
                    subnet,
                    internal,
                    mac,
                    session,
                );
                answer::started(to, outcome, addresses.len())
            }
            Some(
                Order::Step {
                    event,
                    room,
                    received,
                },
            ) => self.step(to, event, room, received),
            Some(Order::Table) => answer::listing(to, self.coordinator.setup, &self.table),
            None => writeln!(to, "bad line {number}"),
        }
    }
}

// Plays the lines from first to last.
fn play<W: Write>(to: &mut W, lines: &[u8]) -> io::Result<()> {
    let mut world = World::new();
    // The loop is each program's own: shared, it would take the program's step as a closure, and be no plainer than these lines.
    let mut number = 0;
    let mut at = 0;
    while let Some((line, next)) = script::line_at(lines, at) {
        number += 1;
        world.play(to, number, line)?;
        at = next;
    }
    Ok(())
}

// Room for the longest script, on the stack: the program asks for no memory but its writer's.
fn blank_script() -> [u8; script::LONGEST] {
    [0; script::LONGEST]
}

fn main(rt: HostRuntime) -> io::Result<()> {
    let mut input = blank_script();
    let n = console::read_full(&mut rt.reader(), &mut input)?;
    let mut to = BufWriter::new(rt.alloc(), io::writer(&rt))?;
    play(&mut to, &input[..n])?;
    to.flush()
}
