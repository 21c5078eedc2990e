// A lent coordinator and lent records where they stand: what is seen of them, and a change made of them.
#![tactic(auto)]

ghost use Rattle.std.specs.Prelude.{◌≡◌, ◌+◌, ◌-◌, min, length};
ghost use Rattle.ground.specs.Choose.{choose};
ghost use Rattle.board.specs.Table.{at};
ghost use Rattle.board.specs.Wanted.{of_kind_below};
ghost use Rattle.coordinator.specs.State.{state_of, composed};
ghost use Rattle.look.specs.Digest.{digest_all, noted_in};
ghost use Rattle.change.specs.Change.{kept_bytes, keepable, changed_from, amended};
ghost use Rattle.place.specs.Place.{place_of, edited_between, numbered_first};

use board::Node;
use change::{Change, Edit};
use coordinator::{Coordinator, State};
use look::{Digest, Seen};

// Lent records read where they stand, at most forty of them: each is noted.
#[tactic(auto, using(look::proofs::Digests::digest_none))]
fn note(k: usize, nodes: &[Node], digest: &mut Digest)
    ensures { digest.new ≡ digest_all k nodes.now digest.old }
{
    let first = &nodes[..nodes.len().min(40)];
    for (i, node) in first.iter().enumerate() {
        digest.note(k, i, *node);
    }
}

// The index of a position among n records, or n where there is none.
#[tactic(auto, unfolding(ground::specs::Choose::choose))]
fn index_among(position: usize, n: usize) -> usize
    ensures { result ≡ place_of position n }
{
    if 0 < position && position <= n {
        position - 1
    } else {
        n
    }
}

// The record at a position of lent records; the blank one where there is none.
#[tactic(auto, using(crate::proofs::Places::place_at, crate::proofs::Places::place_past))]
pub fn record_at(nodes: &[Node], position: usize) -> Node
    ensures { result ≡ at nodes.now position }
{
    nodes
        .get(index_among(position, nodes.len()))
        .copied()
        .unwrap_or(board::blank_node())
}

// Lent records edited where they stand, from an index up to another.
#[tactic(auto, using(crate::proofs::Edits::edited_none, crate::proofs::Edits::edited_more))]
pub fn amend(nodes: &mut [Node], from: usize, to: usize, edit: Edit)
    ensures { nodes.new ≡ edited_between nodes.old from to edit }
{
    // By index: what a loop over `iter_mut().take(to).skip(from)` writes is not known after it, since that is an adapter.
    for i in from..to.min(nodes.len()) {
        nodes[i] = change::edited(edit, nodes[i]);
    }
}

// How many of the first i records are of a type; 255 at most. Over records as they are lent: board counts over a column (`kind_below`), and setup
// all types in one pass (`tally_one`).
fn kind_before(nodes: &[Node], kind: u8, i: usize) -> u8
    ensures { result ≡ min (of_kind_below nodes.now kind (i + 1)) 255 }
{
    // Not `iter().take(i)`, whose turns look for two ends: a list or a clear of forty boards takes 1.3 to 1.7 times the instructions.
    nodes[..i.min(nodes.len())]
        .iter()
        .fold(0, |count, node| board::counted(count, kind, *node))
}

// The first records up to `to`, each with its board's index counted: how many before it are of its type.
#[tactic(auto, using(crate::proofs::Numbers::none_numbered, crate::proofs::Numbers::numbered_more))]
pub fn number(nodes: &mut [Node], to: usize)
    ensures { nodes.new ≡ numbered_first nodes.old (min (length nodes.old) to) }
{
    // By index: each turn counts in all the records before the one that it writes, so that the slice cannot be lent to an iterator.
    for i in 0..nodes.len().min(to) {
        let index = kind_before(nodes, nodes[i].kind, i);
        nodes[i] = board::indexed(nodes[i], index);
    }
}

// A state put into a lent coordinator, where it stands: the setup and the payload that is kept stay as they are.
fn put_state(coordinator: &mut Coordinator, state: State)
    ensures { coordinator.new ≡ composed coordinator.old.setup state coordinator.old.kept.payload }
{
    coordinator.last = state.last;
    coordinator.held = state.held;
    coordinator.searched = state.searched;
    coordinator.stand = state.stand;
    // The fields of a head stand flat in `Kept`, which C reads (`#[repr(C)]`), so that each is stored by its name.
    coordinator.kept.message = state.head.message;
    coordinator.kept.packet = state.head.packet;
    coordinator.kept.kind = state.head.kind;
    coordinator.kept.method = state.head.method;
    coordinator.kept.parameter = state.head.parameter;
    coordinator.kept.length = state.head.length;
    coordinator.found = state.found;
}

// What is seen of a lent coordinator and of lent records: the setup, the state, and what is noted of the records, in the digest that is lent.
pub fn look(coordinator: &Coordinator, nodes: &[Node], digest: &mut Digest) -> Seen
    ensures { (result.setup ≡ coordinator.now.setup) × ((result.state ≡ state_of coordinator.now) × ((noted_in result digest.new.columns ≡ digest.new) × (digest.new ≡ digest_all coordinator.now.setup.k nodes.now digest.old))) }
{
    let setup = coordinator.setup;
    note(setup.k, nodes, digest);
    Seen {
        setup,
        state: State::from(coordinator),
        ok: digest.ok,
        top: digest.top,
        owed: digest.owed,
    }
}

// Where the record of a position stands among the records: the number below it; 0 for position 0, which names nobody.
pub fn below(position: usize) -> usize
    ensures { result ≡ position - 1 }
{
    position.saturating_sub(1)
}

// A change made where coordinator and records stand; `state` is the one that was read of the coordinator.
pub fn make(
    coordinator: &mut Coordinator,
    nodes: &mut [Node],
    state: State,
    change: Change,
    received: &[u8],
)
    ensures { (coordinator.new ≡ changed_from state change received.now coordinator.old) × (nodes.new ≡ amended change nodes.old) }
{
    put_state(coordinator, change::after(change, state, received));
    let kept = change::keeps(change);
    change::keep(kept, received, &mut coordinator.kept.payload);
    amend(nodes, below(change.position), change.position, change.edit);
    if change.owe {
        let n = nodes.len();
        number(nodes, n);
        amend(nodes, 0, n, Edit::Owed);
    }
}
