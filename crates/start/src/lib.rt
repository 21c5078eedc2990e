// Setup: the fresh start. It clears all records, waits, dues and holds.
#![tactic(auto)]

ghost use Rattle.std.specs.Prelude.{◌≡◌, []};
ghost use Rattle.refusal.specs.Refusal.{ruled, refuses, gives};
ghost use Rattle.setup.specs.Setup.{told_of};
ghost use Rattle.start.specs.Begin.{begun, begin_rules, begin_of};

use coordinator::Coordinator;
use refusal::Refusal;
use setup::Setup;
use steps::{Answer, Outcome};

// The coordinator after setup, how many of the records it clears, all or none, and what it answers. No Result: `begin_of` says what a refusal
// leaves too, the coordinator as it was given; and a count, as `place::amend` takes it.
#[derive(Clone, Copy)]
pub struct Begun {
    pub coordinator: Coordinator,
    pub clear: usize,
    pub outcome: Outcome,
}

// What setup over `count` records refuses.
#[tactic(auto, unfolding(ground::specs::Choose::choose))]
fn judge(count: usize, addresses: &[u8], mac: u64) -> Result<(), Refusal>
    ensures { told_of result ≡ ruled (begin_rules count addresses.now mac) refuses (gives []) }
{
    if count != 40 {
        return Err(Refusal::StateUnfit);
    }
    setup::judge_setup(addresses, mac)
}

// What setup leaves of a coordinator, how many records it clears, and its answer: nothing is written, nobody joins and nobody is dropped.
fn leaving(coordinator: Coordinator, clear: usize, answer: Answer) -> Begun
    ensures { result ≡ begun coordinator clear answer }
{
    Begun {
        coordinator,
        clear,
        outcome: answer.into(),
    }
}

// Setup over `count` records, which are cleared where they stand. What it is given stands apart, as `start_of` and the face for C have it.
pub fn begin(
    coordinator: Coordinator,
    count: usize,
    addresses: &[u8],
    subnet: u8,
    internal: u8,
    mac: u64,
    session: u64,
) -> Begun
    ensures { result ≡ begin_of coordinator count addresses.now subnet internal mac session }
{
    if let Err(refusal) = judge(count, addresses, mac) {
        return leaving(coordinator, 0, Answer::Refuse(refusal));
    }
    let fresh = coordinator::fresh(Setup {
        pool: ground::padded(addresses),
        k: addresses.len(),
        subnet,
        internal,
        mac,
        session,
    });
    leaving(fresh, count, Answer::Rest)
}
