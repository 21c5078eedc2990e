// The numbers by which the panel refuses. A refusal is a case; the rule book's number is `number`. 17 is retired, and 28 and 29 are none's yet.
#![tactic(auto)]

ghost use Rattle.std.specs.Prelude.{◌≡◌};
ghost use Rattle.refusal.specs.Refusal.{number_of};

#[derive(Clone, Copy, PartialEq, Eq)]
pub enum Refusal {
    // under 12 bytes
    Short = 1,
    // n above 240
    OverLong = 2,
    // bytes not 12 + n
    LengthMismatch = 3,
    // frame not good
    BadChecksum = 4,
    // destination not 255
    NotForUs = 5,
    // no wait, or another source
    NotAwaited = 6,
    // a type that this wait does not take, or a type 0 that is no ACK
    UnexpectedType = 7,
    // after a list, 0x94 with another payload; after Set Address, 0xFA with another payload
    BadEcho = 8,
    // request with a method above 3
    BadMethod = 9,
    // writer given over 240
    PayloadTooLong = 10,
    // output shorter than what is due
    NoRoom = 11,
    // join with type 0 or 165
    BadType = 12,
    // MAC outside the range, in a join or in setup
    BadMac = 13,
    // join or discovery while waiting, while a forward, return or list is due, or in an exchange by which a board joins
    Busy = 14,
    // join or discovery while held; a second discovery since the last offer
    Held = 15,
    // new MAC or discovery, no free position
    Full = 16,
    // turn during a wait
    AwaitingReply = 18,
    // turn with no board
    NobodyListed = 19,
    // quiet without a wait
    NotWaiting = 20,
    // pool not as the rules say
    BadPool = 21,
    // lent state or table not fit; an image of shared data of another size
    StateUnfit = 22,
    // a response of types 0xF9 to 0xFB while no exchange by which a board joins runs
    NotDiscovering = 23,
    // a good frame whose subnet is not taken
    OtherSubnet = 24,
    // join that would leave a 1.0 board listed with more than 15 types
    TooManyTypes = 25,
    // a record of shared data under 6 bytes or over 200
    BadLength = 26,
    // a record of a new sector, every slot in use
    NoSlot = 27,
    // an encapsulation whose payload is not code, operands and one whole message
    BadInner = 30,
    // an encapsulation inside four others; more than four levels to be written
    TooDeep = 31,
    // a payload without its fixed bytes, or a text of another length than its length byte says, or longer than its message may have
    BadTextLength = 32,
    // a text byte outside 0x20 to 0x7E
    BadText = 33,
}

// The rule book's number of a refusal.
// There is no `From<Refusal> for u8` beside it: a second name for the same number is no plainer than `number`, which docs/PROMISES.md names.
pub fn number(refusal: Refusal) -> u8
    ensures { result ≡ number_of refusal }
{
    refusal as u8
}
