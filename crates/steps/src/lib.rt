// What a step is told and what it gives. The rules of the steps themselves are the definitions of specs/; the code that
// meets them stands in the crates start, join, turn, receive, quiet and seek.
#![tactic(auto)]

ghost use Rattle.std.specs.Prelude.{◌≡◌};
ghost use Rattle.steps.specs.Seek.{is_waiting};
ghost use Rattle.steps.specs.Outcome.{plain};

use board::Table;
use coordinator::{Coordinator, Exchange, Part};
use refusal::Refusal;

// What happens to the panel: a board has joined, it is the panel's turn, bytes came in, nothing came in, boards without an
// address are to be looked for.
#[derive(Clone, Copy)]
pub enum Event {
    Join {
        kind: u8,
        mac: u64,
        session: u64,
        version: u8,
    },
    Turn,
    Frame,
    Quiet,
    Discover,
}

// The waits of the exchange by which a board joins, by the numbers that C is told, which follow those of `Exchange`.
#[derive(Clone, Copy)]
pub enum Seek {
    Search = 5,
    Identify,
    Assign,
}

// What the panel now does. It waits for a listed board in a kind of exchange, or, in the exchange by which a board joins,
// for whoever is or will be at the address of a position, listed or not.
// A refusal is one of them, as the rule book counts them and the theorems over any series speak of them (`told`): so this is no Result.
#[derive(Clone, Copy)]
pub enum Answer {
    Wait(usize, Exchange),
    Seek(usize, Seek),
    Deliver,
    Transmit,
    Rest,
    Refuse(Refusal),
}

// The answer, the count of bytes written, the position joined and the position dropped, 0 for none: so the rules say them
// (`leaving`), and so C is told.
#[derive(Clone, Copy)]
pub struct Outcome {
    pub answer: Answer,
    pub written: usize,
    pub joined: usize,
    pub dropped: usize,
}

// The outcome of an answer with which nothing is written, nobody joins and nobody is dropped.
impl From<Answer> for Outcome {
    ghost from_gives = { λ answer outcome. outcome ≡ plain answer };

    fn from(answer: Answer) -> Outcome {
        Outcome {
            answer,
            written: 0,
            joined: 0,
            dropped: 0,
        }
    }
}

// What a step leaves.
#[derive(Clone, Copy)]
pub struct Stepped {
    pub coordinator: Coordinator,
    pub table: Table,
    pub outcome: Outcome,
}

// Whether a part of the exchange by which a board joins waits; in the others a transmission is due.
pub fn is_waiting(part: Part) -> bool
    ensures { result ≡ is_waiting part }
{
    !matches!(part, Part::IdentifyDue | Part::AssignDue)
}
