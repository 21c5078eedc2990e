// The panel for C: the faces of panel, as an archive that C links.
// Each calls the function of its name there, and promises the same.
#![tactic(auto)]

ghost use Rattle.std.specs.Prelude.{◌≡◌, length};
ghost use Rattle.ground.specs.Bytes.{laid};
ghost use Rattle.steps.specs.Start.{start_of};
ghost use Rattle.steps.specs.Step.{step_of};
ghost use Rattle.lent.specs.Numbers.{event_of, facing, faced};
ghost use Rattle.lent.specs.Amend.{amends, listing, clearing, marking, amend_of};

use board::Node;
use coordinator::Coordinator;

// A board listed at a position, in place, and all indexes counted anew.
#[unsafe(no_mangle)]
pub extern "C" fn nadrelgos_list(
    nodes: &mut [Node],
    position: usize,
    kind: u8,
    mac: u64,
    session: u64,
    version: u8,
) -> u64
    ensures { amends result nodes.new ≡ amend_of (length nodes.old) nodes.old (listing nodes.old position kind mac session version) }
{
    panel::nadrelgos_list(nodes, position, kind, mac, session, version)
}

// A position cleared, in place, and all indexes counted anew.
#[unsafe(no_mangle)]
pub extern "C" fn nadrelgos_clear(nodes: &mut [Node], position: usize) -> u64
    ensures { amends result nodes.new ≡ amend_of (length nodes.old) nodes.old (clearing nodes.old position) }
{
    panel::nadrelgos_clear(nodes, position)
}

// The list marked as owed to the board at a position, in place. No index changes, and none is counted.
#[unsafe(no_mangle)]
pub extern "C" fn nadrelgos_mark(nodes: &mut [Node], position: usize) -> u64
    ensures { amends result nodes.new ≡ amend_of (length nodes.old) nodes.old (marking nodes.old position) }
{
    panel::nadrelgos_mark(nodes, position)
}

// Setup for C: the outcome packed.
#[unsafe(no_mangle)]
pub extern "C" fn nadrelgos_setup(
    coordinator: &mut Coordinator,
    nodes: &mut [Node],
    addresses: &[u8],
    subnet: u8,
    internal: u8,
    mac: u64,
    session: u64,
) -> u64
    ensures { facing result coordinator.new nodes.new ≡ faced (start_of coordinator.old nodes.old addresses.now subnet internal mac session) }
{
    panel::nadrelgos_setup(
        coordinator,
        nodes,
        addresses,
        subnet,
        internal,
        mac,
        session,
    )
}

// A step for C: the event by its number, the outcome packed.
#[unsafe(no_mangle)]
pub extern "C" fn nadrelgos_step(
    coordinator: &mut Coordinator,
    nodes: &mut [Node],
    number: u8,
    kind: u8,
    mac: u64,
    session: u64,
    version: u8,
    received: &[u8],
    out: &mut [u8],
) -> u64
    ensures { (facing result coordinator.new nodes.new ≡ faced (step_of coordinator.old nodes.old (event_of number kind mac session version) received.now (length out.old))) × (out.new ≡ laid (step_of coordinator.old nodes.old (event_of number kind mac session version) received.now (length out.old)).bytes out.old) }
{
    panel::nadrelgos_step(
        coordinator,
        nodes,
        number,
        kind,
        mac,
        session,
        version,
        received,
        out,
    )
}
