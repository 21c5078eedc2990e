// Quiet: the wait is over and no frame has ended it.
#![tactic(auto)]

ghost use Rattle.std.specs.Prelude.{◌≡◌};
ghost use Rattle.ground.specs.Choose.{choose};
ghost use Rattle.board.specs.Table.{at};
ghost use Rattle.board.specs.Columns.{kinds_of};
ghost use Rattle.coordinator.specs.declared.Phase.TheVariants.{Resting};
ghost use Rattle.steps.specs.Quiet.{missed_at, quiet_of};
ghost use Rattle.change.specs.declared.Move.TheVariants.{To, Emptied};
ghost use Rattle.change.specs.Decides.{Makes};

use board::{Node, Wanted};
use change::{Change, Edit, Move};
use coordinator::Phase;
use look::Seen;
use refusal::Refusal;

// The coordinator rests; joins are held no more where nobody is listed.
#[tactic(auto, unfolding(ground::specs::Choose::choose))]
fn rested(listed: bool) -> Move
    ensures { result ≡ choose listed (To Resting) Emptied }
{
    if listed {
        Move::To(Phase::Resting)
    } else {
        Move::Emptied
    }
}

// The board did not answer: one miss more, and the third drops it. The list is then owed to all who remain: somebody does
// where the highest or the lowest listed position is another.
fn missing(seen: Seen, node: Node, kinds: &[u8; 40], board: usize) -> Change
    ensures { Makes seen (λ c t. (kinds.now ≡ kinds_of t) × (node ≡ at t board)) (λ c t. missed_at c t board) result }
{
    if node.misses < 2 {
        return change::resting(Move::To(Phase::Resting), board, Edit::Missed, false, 0, 0);
    }
    let lowest = board::lowest(kinds, Wanted::Listed, 40);
    let left = rested(0 < seen.top && (seen.top != board || lowest != board));
    change::resting(left, board, Edit::Cleared, true, 0, board)
}

// The wait ends. It is a miss, unless the ACK to a forward has come, or it was in the exchange by which a board joins. The
// node is the record of the board that the stand names.
pub fn quiet(seen: Seen, node: Node, kinds: &[u8; 40]) -> Change
    ensures { Makes seen (λ c t. (kinds.now ≡ kinds_of t) × (node ≡ at t c.stand.board)) (λ c t. quiet_of c t) result }
{
    match coordinator::phase_of(seen.state.stand) {
        Phase::Awaiting { acked, .. } if acked => {
            change::resting(Move::To(Phase::Resting), 0, Edit::Nothing, false, 0, 0)
        }
        Phase::Awaiting { board, .. } => missing(seen, node, kinds, board),
        Phase::Seeking { position, part } => seek::quieted(part, position),
        _ => change::refusing(Refusal::NotWaiting),
    }
}
