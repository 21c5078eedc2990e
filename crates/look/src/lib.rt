// The look: what a step sees of the coordinator and of the records, and whether the two are fit together. By this alone
// it decides what to do; the records themselves it does not read.
#![tactic(auto)]

ghost use Rattle.std.specs.Prelude.{◌≡◌, ◌<◌, not};
ghost use Rattle.board.specs.Columns.{typed, forty};
ghost use Rattle.board.specs.Types.{too_many_types};
ghost use Rattle.coordinator.specs.State.{bare};
ghost use Rattle.coordinator.specs.Fit.{is_request, is_response, exchange_fits, phase_fits, is_found, part_fits, seek_fits};
ghost use Rattle.look.specs.Seen.{fits_seen};
ghost use Rattle.look.specs.Digest.{zeroed, owed_first, noted};

use board::{Columns, Node};
use coordinator::{Exchange, Found, Head, Part, Phase, State};
use setup::Setup;

// What is seen besides the columns: the setup and the state of the coordinator, whether each record is fit by itself, and
// the highest listed position and the lowest to which the list is owed, 0 for none, as `highest_listed` and `lowest_of`
// have it.
#[derive(Clone, Copy)]
pub struct Seen {
    pub setup: Setup,
    pub state: State,
    pub ok: bool,
    pub top: usize,
    pub owed: usize,
}

// What was noted of records: whether each is fit by itself, the highest listed position, the lowest to which the list is
// owed, 0 for none as in `Seen`, and the columns of those that are listed.
#[derive(Clone, Copy)]
pub struct Digest {
    pub ok: bool,
    pub top: usize,
    pub owed: usize,
    pub columns: Columns,
}

// The lowest position to which the list is owed, with the mark of the record at index i noted too.
#[tactic(auto, unfolding(ground::specs::Choose::choose))]
fn owed_first(owed: usize, i: usize, mark: u8) -> usize
    requires { i < 40 }
    ensures { result ≡ owed_first owed i mark }
{
    if owed == 0 && mark == 1 { i + 1 } else { owed }
}

impl Digest {
    // Nothing is noted yet. Not derived: the derive fills an array by a call for each place.
    pub fn new() -> Digest
        ensures { result ≡ zeroed }
    {
        Digest {
            ok: true,
            top: 0,
            owed: 0,
            columns: Columns {
                kinds: [0; 40],
                indexes: [0; 40],
                versions: [0; 40],
                macs: [0; 40],
            },
        }
    }

    // The record at an index noted: its type, stored index, version and MAC go into the columns where it is listed.
    #[tactic(auto, unfolding(ground::specs::Choose::choose))]
    pub fn note(&mut self, k: usize, i: usize, node: Node)
        ensures { self.new ≡ noted k i node self.old }
    {
        if 40 <= i {
            return;
        }
        self.ok = self.ok & setup::record_fits(k, i, node);
        if node.kind == 0 {
            return;
        }
        self.columns.kinds[i] = node.kind;
        self.columns.indexes[i] = node.index;
        self.columns.versions[i] = node.version;
        self.columns.macs[i] = node.mac;
        self.top = i + 1;
        self.owed = owed_first(self.owed, i, node.owed);
    }
}

fn is_request(head: Head) -> bool
    ensures { result ≡ is_request (bare head) }
{
    matches!(head.message, 1..=127) && matches!(head.method, 1..=3) && head.length <= 240
}

fn is_response(head: Head) -> bool
    ensures { result ≡ is_response (bare head) }
{
    128 < head.message && head.length <= 240
}

// A forward's wait asks for the requester and its request too.
fn exchange_fits(exchange: Exchange, requester: usize, kinds: &[u8; 40], head: Head) -> bool
    ensures { result ≡ exchange_fits exchange requester (typed kinds.now) (bare head) }
{
    match exchange {
        Exchange::Forward => board::listed_at(kinds, requester) && is_request(head),
        Exchange::Offer | Exchange::List | Exchange::Return => true,
    }
}

// The boards that the phase names are listed, and what is kept is what they need.
#[tactic(auto, unfolding(coordinator::specs::Fit::phase_fits))]
fn phase_fits(phase: Phase, kinds: &[u8; 40], head: Head) -> bool
    ensures { result ≡ phase_fits phase (typed kinds.now) (bare head) }
{
    match phase {
        Phase::Resting | Phase::Seeking { .. } => true,
        Phase::Awaiting {
            board,
            exchange,
            requester,
            ..
        } => board::listed_at(kinds, board) && exchange_fits(exchange, requester, kinds, head),
        Phase::ForwardDue { board, requester } => {
            board::listed_at(kinds, board) && board::listed_at(kinds, requester) && is_request(head)
        }
        Phase::ReturnDue { board } => board::listed_at(kinds, board) && is_response(head),
        Phase::Unknown => false,
    }
}

// What was discovered is within the ranges.
fn is_found(found: Found) -> bool
    ensures { result ≡ is_found found }
{
    board::is_kind(found.kind) && setup::is_mac(found.mac) && board::is_version(found.version)
}

// From its response on, what was discovered is needed.
fn part_fits(part: Part, found: Found) -> bool
    ensures { result ≡ part_fits part found }
{
    matches!(part, Part::Search) || is_found(found)
}

// The position at stake is one of 1 to k, and what was discovered is as it should be.
fn seek_fits(phase: Phase, k: usize, found: Found) -> bool
    ensures { result ≡ seek_fits phase k found }
{
    match phase {
        Phase::Seeking { position, part } => {
            1 <= position && position <= k && part_fits(part, found)
        }
        _ => true,
    }
}

// The rule on the types is kept. Where there is no 1.0 board, which is known at a glance, nothing is counted.
#[tactic(auto, using(board::proofs::Types::nobody_more), unfolding(ground::specs::Choose::choose, board::specs::Types::too_many_types))]
fn types_fit(columns: &Columns) -> bool
    ensures { result ≡ not (too_many_types (forty columns.now.kinds) (forty columns.now.versions)) }
{
    !board::has_old(&columns.versions) || !board::too_many_with(columns, 0, 0, 0)
}

// Coordinator and records are fit together. MACs are compared and indexes counted up to the highest listed position: above it there are none. Joins are held only where somebody is listed.
#[tactic(auto, unfolding(crate::specs::Seen::fits_seen))]
pub fn fits(seen: Seen, columns: &Columns) -> bool
    ensures { result ≡ fits_seen seen columns.now }
{
    let Seen {
        setup,
        state,
        ok,
        top,
        ..
    } = seen;
    let State {
        last,
        held,
        searched,
        stand,
        head,
        found,
    } = state;
    let phase = coordinator::phase_of(stand);
    setup::setup_fits(setup)
        && ok
        && setup::boards_fit(columns, top)
        && types_fit(columns)
        && phase_fits(phase, &columns.kinds, head)
        && seek_fits(phase, setup.k, found)
        && searched <= 1
        && (held == 0 || (held == 1 && 0 < top))
        && last <= setup.k
}
