// The part of the lent forms, besides the steps, that sees numbers alone: which single records a host amends by itself, told how many there are, and
// the numbers that stand at the C face.
#![tactic(auto)]

ghost use Rattle.std.specs.Prelude.{◌≡◌, ◌-◌};
ghost use Rattle.steps.specs.After.{told};
ghost use Rattle.change.specs.declared.Edit.TheVariants.{Owed, Cleared, Joined};
ghost use Rattle.lent.specs.Numbers.{event_of, saying, packed};
ghost use Rattle.lent.specs.Amend.{amending};

use change::Edit;
use refusal::Refusal;
use stepping::RECORDS;
use steps::{Answer, Event, Outcome};

// Which records a host amends by itself, from an index up to another, what is done to each, how many there are to number
// where that moves indexes, and the packed answer. Where no record is amended the range is empty (from 0 up to 0, or behind the forty).
#[derive(Clone, Copy)]
pub struct Amendment {
    pub from: usize,
    pub to: usize,
    pub edit: Edit,
    pub all: usize,
    pub answer: u64,
}

// The record at a position of `count` records edited: none of them where they are not forty, or where the position names nobody.
#[tactic(auto, unfolding(ground::specs::Choose::choose))]
fn amending(count: usize, position: usize, edit: Edit) -> Amendment
    ensures { result ≡ amending count position edit }
{
    if count != RECORDS {
        return Amendment {
            from: 0,
            to: 0,
            edit,
            all: 0,
            answer: plainly(Answer::Refuse(Refusal::StateUnfit)),
        };
    }
    Amendment {
        from: place::below(position),
        to: position,
        edit,
        all: count,
        answer: plainly(Answer::Rest),
    }
}

// A board listed at a position of `count` records. This and the two below are `amending` by the names that the faces for C have for it.
pub fn list_edit(
    count: usize,
    position: usize,
    kind: u8,
    mac: u64,
    session: u64,
    version: u8,
) -> Amendment
    ensures { result ≡ amending count position (Joined kind mac session version) }
{
    amending(count, position, Edit::Joined(kind, mac, session, version))
}

// A position of them cleared.
pub fn clear_edit(count: usize, position: usize) -> Amendment
    ensures { result ≡ amending count position Cleared }
{
    amending(count, position, Edit::Cleared)
}

// The list marked as owed to the board at a position of them.
pub fn mark_edit(count: usize, position: usize) -> Amendment
    ensures { result ≡ amending count position Owed }
{
    amending(count, position, Edit::Owed)
}

// The event that C names by its number; any other number is a join of type 0, which is always refused.
#[tactic(auto, unfolding(ground::specs::Choose::choose))]
pub fn event_of(number: u8, kind: u8, mac: u64, session: u64, version: u8) -> Event
    ensures { result ≡ event_of number kind mac session version }
{
    match number {
        1 => Event::Join {
            kind,
            mac,
            session,
            version,
        },
        2 => Event::Turn,
        3 => Event::Frame,
        4 => Event::Quiet,
        5 => Event::Discover,
        _ => Event::Join {
            kind: 0,
            mac,
            session,
            version,
        },
    }
}

// What an answer says, in four bytes.
fn saying(answer: Answer) -> [u8; 4]
    ensures { result ≡ saying (told answer) }
{
    match answer {
        Answer::Wait(board, exchange) => [0, 1, (board % 256) as u8, exchange as u8],
        Answer::Seek(position, seek) => [0, 1, (position % 256) as u8, seek as u8],
        Answer::Deliver => [0, 2, 0, 0],
        Answer::Transmit => [0, 3, 0, 0],
        Answer::Rest => [0, 4, 0, 0],
        Answer::Refuse(refusal) => [refusal::number(refusal), 0, 0, 0],
    }
}

// An outcome as C is told it: one number of eight bytes.
pub fn pack(outcome: Outcome) -> u64
    ensures { result ≡ packed (told outcome.answer) outcome.written outcome.joined outcome.dropped }
{
    let [refusal, said, position, exchange] = saying(outcome.answer);
    let [joined, ..] = outcome.joined.to_le_bytes();
    let [dropped, ..] = outcome.dropped.to_le_bytes();
    let [low, high, ..] = outcome.written.to_le_bytes();
    u64::from_le_bytes([
        refusal, said, position, exchange, joined, dropped, low, high,
    ])
}

// An answer with which nothing is written, nobody joins and nobody is dropped.
fn plainly(answer: Answer) -> u64
    ensures { result ≡ packed (told answer) 0 0 0 }
{
    pack(answer.into())
}
