// One step over an event, with the bytes received and the output that is lent: what was seen decides on a change.
#![tactic(auto)]

ghost use Rattle.std.specs.Prelude.{length};
ghost use Rattle.steps.specs.Step.{step_of};
ghost use Rattle.change.specs.Decides.{Takes};
ghost use Rattle.stepping.specs.Deciding.{Known, DecidesStep, DecidesCounted};

use board::{Columns, Node};
use change::Change;
use look::Seen;
use refusal::Refusal;
use steps::Event;

// The three functions below hand on the same: each tests one thing more, and the clause of the next says what it takes for tested.

// As many records as a table has.
pub const RECORDS: usize = 40;

// What a step on fit records decides on. Received bytes are looked at by the event Frame alone, and the output is written
// by Turn, Frame and Discover alone.
fn deciding(
    seen: Seen,
    node: Node,
    payload: &[u8],
    columns: &Columns,
    event: Event,
    received: &[u8],
    out: &mut [u8],
) -> Change
    ensures { Takes seen (Known node payload.now columns.now) received.now (λ c t. step_of c t event received.now (length out.old)) result out.old out.new }
{
    match event {
        Event::Join {
            kind,
            mac,
            session,
            version,
        } => join::join(seen, columns, kind, mac, session, version),
        Event::Turn => turn::turn(seen, payload, columns, out),
        Event::Frame => receive::receive(seen, node, columns, received, out),
        Event::Quiet => quiet::quiet(seen, node, &columns.kinds),
        Event::Discover => seek::discover(seen, &columns.kinds, out),
    }
}

// What a step decides on, by what was seen of coordinator and records: `node` is the record of the board that the stand
// names, `payload` the one that is kept. Records that are not fit are refused.
fn decide(
    seen: Seen,
    node: Node,
    payload: &[u8],
    columns: &Columns,
    event: Event,
    received: &[u8],
    out: &mut [u8],
) -> Change
    ensures { DecidesStep seen node payload.now columns.now event received.now result out.old out.new }
{
    if !look::fits(seen, columns) {
        return change::refusing(Refusal::StateUnfit);
    }
    deciding(seen, node, payload, columns, event, received, out)
}

// What a step decides on over any number of records, told how many there are: those that are not forty are refused.
pub fn counted(
    count: usize,
    seen: Seen,
    node: Node,
    payload: &[u8; 240],
    columns: &Columns,
    event: Event,
    received: &[u8],
    out: &mut [u8],
) -> Change
    ensures { DecidesCounted count seen node payload.now columns.now event received.now result out.old out.new }
{
    if count != RECORDS {
        return change::refusing(Refusal::StateUnfit);
    }
    decide(seen, node, payload, columns, event, received, out)
}
