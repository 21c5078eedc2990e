// The lent forms: the host's coordinator and records, updated where they stand, for Rattle and for C. A step looks, has it decided, and
// changes; for the others a function that sees no record says which are edited, and how, and how many are numbered then. Records
// that are not forty get 22, and stay as they were.
#![tactic(auto)]

ghost use Rattle.std.specs.Prelude.{◌≡◌, length};
ghost use Rattle.ground.specs.Bytes.{laid};
ghost use Rattle.steps.specs.After.{shows, shown};
ghost use Rattle.steps.specs.Start.{start_of};
ghost use Rattle.steps.specs.Step.{step_of};
ghost use Rattle.lent.specs.Lent.{in_place};
ghost use Rattle.lent.specs.Numbers.{event_of, facing, faced};
ghost use Rattle.lent.specs.Amend.{amends, listing, clearing, marking, amend_of, amended_by};

use board::{Node, Table};
use change::Edit;
use coordinator::Coordinator;
use lent::Amendment;
use look::Digest;
use steps::{Event, Outcome, Stepped};

// Setup: the fresh start, in place.
pub fn setup(
    coordinator: &mut Coordinator,
    nodes: &mut [Node],
    addresses: &[u8],
    subnet: u8,
    internal: u8,
    mac: u64,
    session: u64,
) -> Outcome
    ensures { in_place result coordinator.new nodes.new ≡ shows (start_of coordinator.old nodes.old addresses.now subnet internal mac session) }
{
    let count = nodes.len();
    let begun = start::begin(
        *coordinator,
        count,
        addresses,
        subnet,
        internal,
        mac,
        session,
    );
    place::amend(nodes, 0, begun.clear, Edit::Cleared);
    *coordinator = begun.coordinator;
    begun.outcome
}

// The panel's step, in place: look, decide, change. Received bytes are looked at by the event Frame alone, and the output is written by Turn, Frame and Discover alone.
pub fn step(
    coordinator: &mut Coordinator,
    nodes: &mut [Node],
    event: Event,
    received: &[u8],
    out: &mut [u8],
) -> Outcome
    ensures { (in_place result coordinator.new nodes.new ≡ shows (step_of coordinator.old nodes.old event received.now (length out.old))) × (out.new ≡ laid (step_of coordinator.old nodes.old event received.now (length out.old)).bytes out.old) }
{
    let mut digest = Digest::new();
    let seen = place::look(coordinator, nodes, &mut digest);
    let node = place::record_at(nodes, seen.state.stand.board);
    let change = stepping::counted(
        nodes.len(),
        seen,
        node,
        &coordinator.kept.payload,
        &digest.columns,
        event,
        received,
        out,
    );
    place::make(coordinator, nodes, seen.state, change, received);
    change.outcome
}

// Records edited in place, and the first `all` counted anew. Inline, so that what is refused costs its two callers no call.
#[inline(always)]
fn amended(nodes: &mut [Node], amendment: Amendment) -> u64
    ensures { amends result nodes.new ≡ amends amendment.answer (amended_by amendment nodes.old) }
{
    let Amendment {
        from,
        to,
        edit,
        all,
        answer,
    } = amendment;
    place::amend(nodes, from, to, edit);
    place::number(nodes, all);
    answer
}

// A board listed at a position, in place, and all indexes counted anew.
pub fn nadrelgos_list(
    nodes: &mut [Node],
    position: usize,
    kind: u8,
    mac: u64,
    session: u64,
    version: u8,
) -> u64
    ensures { amends result nodes.new ≡ amend_of (length nodes.old) nodes.old (listing nodes.old position kind mac session version) }
{
    let listed = lent::list_edit(nodes.len(), position, kind, mac, session, version);
    amended(nodes, listed)
}

// A position cleared, in place, and all indexes counted anew.
pub fn nadrelgos_clear(nodes: &mut [Node], position: usize) -> u64
    ensures { amends result nodes.new ≡ amend_of (length nodes.old) nodes.old (clearing nodes.old position) }
{
    let cleared = lent::clear_edit(nodes.len(), position);
    amended(nodes, cleared)
}

// The list marked as owed to the board at a position, in place. No index changes, and none is counted.
pub fn nadrelgos_mark(nodes: &mut [Node], position: usize) -> u64
    ensures { amends result nodes.new ≡ amend_of (length nodes.old) nodes.old (marking nodes.old position) }
{
    let marked = lent::mark_edit(nodes.len(), position);
    place::amend(nodes, marked.from, marked.to, marked.edit);
    marked.answer
}

// Setup on copies, which it lends: for a caller that keeps coordinator and records as values.
pub fn lend_setup(
    mut coordinator: Coordinator,
    mut table: Table,
    addresses: &[u8],
    subnet: u8,
    internal: u8,
    mac: u64,
    session: u64,
) -> Stepped
    ensures { shown result ≡ shows (start_of coordinator table.nodes addresses.now subnet internal mac session) }
{
    let outcome = setup(
        &mut coordinator,
        &mut table.nodes,
        addresses,
        subnet,
        internal,
        mac,
        session,
    );
    Stepped {
        coordinator,
        table,
        outcome,
    }
}

// A step on copies, which it lends.
pub fn lend_step(
    mut coordinator: Coordinator,
    mut table: Table,
    event: Event,
    received: &[u8],
    out: &mut [u8],
) -> Stepped
    ensures { (shown result ≡ shows (step_of coordinator table.nodes event received.now (length out.old))) × (out.new ≡ laid (step_of coordinator table.nodes event received.now (length out.old)).bytes out.old) }
{
    let outcome = step(&mut coordinator, &mut table.nodes, event, received, out);
    Stepped {
        coordinator,
        table,
        outcome,
    }
}

// Setup for C: the outcome packed.
pub fn nadrelgos_setup(
    coordinator: &mut Coordinator,
    nodes: &mut [Node],
    addresses: &[u8],
    subnet: u8,
    internal: u8,
    mac: u64,
    session: u64,
) -> u64
    ensures { facing result coordinator.new nodes.new ≡ faced (start_of coordinator.old nodes.old addresses.now subnet internal mac session) }
{
    let outcome = setup(
        coordinator,
        nodes,
        addresses,
        subnet,
        internal,
        mac,
        session,
    );
    lent::pack(outcome)
}

// A step for C: the event by its number, the outcome packed.
pub fn nadrelgos_step(
    coordinator: &mut Coordinator,
    nodes: &mut [Node],
    number: u8,
    kind: u8,
    mac: u64,
    session: u64,
    version: u8,
    received: &[u8],
    out: &mut [u8],
) -> u64
    ensures { (facing result coordinator.new nodes.new ≡ faced (step_of coordinator.old nodes.old (event_of number kind mac session version) received.now (length out.old))) × (out.new ≡ laid (step_of coordinator.old nodes.old (event_of number kind mac session version) received.now (length out.old)).bytes out.old) }
{
    let event = lent::event_of(number, kind, mac, session, version);
    lent::pack(step(coordinator, nodes, event, received, out))
}
