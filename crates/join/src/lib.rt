// The step join: a board that has finished the exchange by which boards join is listed, or has its address again.
#![tactic(auto)]

ghost use Rattle.std.specs.Prelude.{◌≡◌};
ghost use Rattle.look.specs.Seen.{OfBoards};
ghost use Rattle.steps.specs.Join.{is_resting, join_of};
ghost use Rattle.change.specs.Decides.{Makes};
ghost use Rattle.join.specs.Parts.{busy_in, chosen_in, Judges};

use board::{Columns, Wanted};
use change::{Change, Edit, Move};
use coordinator::{Phase, State};
use look::Seen;
use refusal::Refusal;

// No wait, no forward or return due, no exchange by which a board joins.
fn is_resting(phase: Phase) -> bool
    ensures { result ≡ is_resting phase }
{
    matches!(phase, Phase::Resting)
}

// The panel waits, a forward, a return or a list is due, or an exchange by which a board joins runs. `owed` is the lowest
// position to which the list is owed, 0 for none.
pub fn is_busy(state: State, owed: usize) -> bool
    ensures { result ≡ busy_in state owed }
{
    !is_resting(coordinator::phase_of(state.stand)) || 0 < owed
}

// The position for a MAC: its own, or the lowest free one where that is 0; 0 where there is none.
// No Option: `lowest_mac` and `lowest` of board give 0 for none, and the position of a change is 0 for nobody.
#[tactic(auto, unfolding(ground::specs::Choose::choose))]
fn chosen(kinds: &[u8; 40], own: usize, k: usize) -> usize
    ensures { result ≡ chosen_in kinds.now own k }
{
    if 0 < own {
        own
    } else {
        board::lowest(kinds, Wanted::Free, k)
    }
}

// What a join of fit records is refused for, in the order of the rules: 12 to 15, 25 where there would be too many types,
// 16 by the position for the MAC.
#[tactic(auto, unfolding(ground::specs::Choose::choose))]
fn judge(
    seen: Seen,
    kind: u8,
    mac: u64,
    version: u8,
    many: bool,
    position: usize,
) -> Result<(), Refusal>
    ensures { Judges seen kind mac version many position result }
{
    let state = seen.state;
    if !board::is_kind(kind) {
        return Err(Refusal::BadType);
    }
    if !setup::is_mac(mac) {
        return Err(Refusal::BadMac);
    }
    if is_busy(state, seen.owed) {
        return Err(Refusal::Busy);
    }
    if state.held == 1 {
        return Err(Refusal::Held);
    }
    if many {
        return Err(Refusal::TooManyTypes);
    }
    if position == 0 {
        return Err(Refusal::Full);
    }
    Ok(())
}

// A board joins, or joins again, perhaps as another type or version: its record begins anew. Every index is then counted anew, the list owed to every listed board, and further joins are held.
// Type, MAC, session and version stand apart, as `join_of`, the event and the face for C have them.
pub fn join(seen: Seen, columns: &Columns, kind: u8, mac: u64, session: u64, version: u8) -> Change
    ensures { Makes seen (OfBoards columns.now) (λ c t. join_of c t kind mac session version) result }
{
    let k = seen.setup.k;
    let own = board::lowest_mac(&columns.macs, mac, k);
    let joining = board::version_of(version);
    let many = board::too_many_with(columns, own, kind, joining);
    let position = chosen(&columns.kinds, own, k);
    if let Err(refusal) = judge(seen, kind, mac, version, many, position) {
        return change::refusing(refusal);
    }
    let edit = Edit::Joined(kind, mac, session, version);
    change::resting(Move::Held, position, edit, true, position, 0)
}
