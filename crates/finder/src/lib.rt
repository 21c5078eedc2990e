// Finds the first good frame in a stretch of line bytes, trying no more starts than the budget allows. A frame whose subnet is
// neither ours nor 0 is passed over as if it were not good.
#![tactic(auto)]

ghost use Rattle.std.specs.Prelude.{◌≡◌, ◌+◌, ◌-◌, ◌*◌, ◌/◌, ◌≤◌, ◌<◌, max, length, take, drop, IsTrue};
ghost use Rattle.fletcher.specs.Fletcher.{is_good};
ghost use Rattle.finder.specs.Finder.{length_at, holds_frame, IsFirst, finding, told};
ghost use Rattle.finder.specs.Numbers.{find_numbers};
ghost use Rattle.finder.specs.Trail.{has_room, can_begin, sums_to, apart, NotedTo};

use fletcher::{Run, Sums};

// What looking finds, and how many starts were tried: the found one counted, all of them, or the whole budget.
// (Three cases, so neither an Option nor a Result.)
#[derive(Clone, Copy)]
pub enum Finding {
    Found {
        start: usize,
        length: usize,
        tried: usize,
    },
    Nothing(usize),
    Spent(usize),
}

// The same as plain numbers, for C: 1 for Found, 2 for Nothing, 3 for Spent. Start and length are 0 where nothing was found.
#[repr(C)]
#[derive(Clone, Copy)]
pub struct FindNumbers {
    pub number: u8,
    pub start: usize,
    pub length: usize,
    pub tried: usize,
}

// The length byte of a frame that begins here.
fn length_at(bytes: &[u8], at: usize) -> usize
    requires { at + 12 ≤ length bytes.now }
    ensures { (result ≡ length_at bytes.now at) × (result < 256) }
{
    usize::from(bytes[at + 9])
}

// Whether a frame has room here: its payload is not too long, and it ends before the stretch does.
fn has_room(bytes: &[u8], at: usize) -> bool
    requires { at + 12 ≤ length bytes.now }
    ensures { result ≡ has_room bytes.now at }
{
    let n = length_at(bytes, at);
    n <= 240 && 12 + n <= bytes.len() - at
}

// Whether a frame that we take can begin here. Its subnet is asked first: in noise hardly any start has ours, or 0.
// (`ours` and `bytes` stay two parameters, here and below: of a struct, clauses would say `self.now.ours` and `self.now.bytes.now`.)
fn can_begin(ours: u8, bytes: &[u8], at: usize) -> bool
    requires { at + 12 ≤ length bytes.now }
    ensures { result ≡ can_begin ours bytes.now at }
{
    frame::takes_subnet(ours, bytes[at + 2]) && has_room(bytes, at)
}

// Whether a good frame begins here, by its own sums.
#[tactic(auto, unfolding(crate::specs::Finder::holds_frame))]
fn holds_frame(ours: u8, bytes: &[u8], at: usize) -> bool
    requires { at + 12 ≤ length bytes.now }
    ensures { result ≡ holds_frame ours bytes.now at }
{
    can_begin(ours, bytes, at) && fletcher::good(&bytes[at..at + (12 + length_at(bytes, at))])
}

// The sums before a place, continued from those before an earlier one.
#[tactic(auto, using(crate::proofs::Trail::first_next, crate::proofs::Trail::second_next, crate::proofs::Trail::first_most, crate::proofs::Trail::second_most))]
fn sums_on(bytes: &[u8], from: usize, before: Sums, place: usize) -> Sums
    requires { (from ≤ place) × (place ≤ length bytes.now) × (place ≤ 4096) × (before ≡ sums_to bytes.now from) }
    ensures { result ≡ sums_to bytes.now place }
{
    let Sums {
        mut first,
        mut second,
    } = before;
    // By index: over `&bytes[from..place]` it is slower (`bench/run instructions`: worst 293,365 for 260,687).
    for i in from..place {
        first += u32::from(bytes[i]);
        second += first;
    }
    Sums { first, second }
}

// The run between two places, by the sums before them.
fn between(before: Sums, after: Sums, length: u32) -> Run
    requires { (before.first ≤ after.first) × (before.second + length * before.first ≤ after.second) }
    ensures { result ≡ apart before after length }
{
    Run {
        first: after.first - before.first,
        second: after.second - before.second - length * before.first,
        length,
    }
}

// The sums before the first `count` fourth places of a stretch, of which the last 64 are kept: those before place 4 j stand at
// j mod 64.
#[derive(Drop)]
struct Notes<'a> {
    bytes: &'a [u8],
    // Not one array of `Sums`, which memset clears: slower (`bench/run instructions`: typical 43,440 for 41,523, worst 268,418 for 260,687).
    firsts: [u32; 64],
    // between the two, so that each is cleared in place
    count: usize,
    seconds: [u32; 64],
    ghost some: { 0 < count },
    ghost noted: { NotedTo bytes.now firsts seconds (count - 1) },
}

impl<'a> Notes<'a> {
    // Noted are the sums before place 0 alone, which are 0.
    #[tactic(auto, unfolding(fletcher::specs::Joined::unreduced))]
    fn new(bytes: &'a [u8]) -> Self
        ensures { (result.bytes.now ≡ bytes.now) × (result.count ≡ 1) }
    {
        Notes {
            bytes,
            firsts: [0; 64],
            count: 1,
            seconds: [0; 64],
        }
    }

    // The sums noted before place 4 j.
    fn at(&self, j: usize) -> Sums
        requires { (j < self.now.count) × (self.now.count ≤ j + 64) }
        ensures { result ≡ sums_to self.now.bytes.now (4 * j) }
    {
        Sums {
            first: self.firsts[j % 64],
            second: self.seconds[j % 64],
        }
    }

    // Notes on, as far as place `end`.
    fn note(&mut self, end: usize)
        requires { (end ≤ length self.old.bytes.now) × (end ≤ 4096) }
        ensures { (self.new.bytes.now ≡ self.old.bytes.now) × (self.new.count ≡ max self.old.count (end / 4 + 1)) }
    {
        let mut sums = self.at(self.count - 1);
        for j in self.count - 1..end / 4 {
            sums = sums_on(self.bytes, 4 * j, sums, 4 * j + 4);
            self.firsts[(j + 1) % 64] = sums.first;
            self.seconds[(j + 1) % 64] = sums.second;
            self.count = j + 2;
        }
    }

    // The sums before a place, from the last noted ones before it.
    fn before(&self, place: usize) -> Sums
        requires within { (place ≤ length self.now.bytes.now) × (place ≤ 4096) }
        requires noted { (place / 4 < self.now.count) × (self.now.count ≤ place / 4 + 64) }
        ensures { result ≡ sums_to self.now.bytes.now place }
    {
        let j = place / 4;
        sums_on(self.bytes, 4 * j, self.at(j), place)
    }

    // Whether the frame that has room here is good, by the difference of the sums before its end and before its start.
    #[tactic(auto, using(crate::proofs::Trail::first_after, crate::proofs::Trail::second_after, crate::proofs::Trail::judged))]
    fn good_at(&mut self, at: usize, before: Sums) -> bool
        requires room { IsTrue (has_room self.old.bytes.now at) }
        requires within { (at + 12 ≤ length self.old.bytes.now) × (at + 252 ≤ 4096) }
        requires near { 4 * self.old.count ≤ at + 256 }
        requires sums { before ≡ sums_to self.old.bytes.now at }
        ensures same { self.new.bytes.now ≡ self.old.bytes.now }
        ensures near { 4 * self.new.count ≤ at + 256 }
        ensures good { result ≡ is_good (take (12 + length_at self.old.bytes.now at) (drop at self.old.bytes.now)) }
    {
        let long = 12 + length_at(self.bytes, at);
        self.note(at + long);
        let after = self.before(at + long);
        fletcher::good_run(between(before, after, long as u32))
    }
}

// The first of so many starts that holds a good frame, with the bytes summed once for all of them.
#[tactic(auto, unfolding(crate::specs::Finder::holds_frame, fletcher::specs::Joined::unreduced))]
fn first_noted(ours: u8, bytes: &[u8], count: usize) -> Option<usize>
    requires { (count ≤ length bytes.now - 11) × (count ≤ 3845) }
    ensures { IsFirst ours bytes.now count result }
{
    let mut notes = Notes::new(bytes);
    let mut before = Sums {
        first: 0,
        second: 0,
    };
    for at in 0..count {
        if can_begin(ours, bytes, at) && notes.good_at(at, before) {
            return Some(at);
        }
        before = sums_on(bytes, at, before, at + 1);
    }
    None
}

// The same. Where a frame begins at once, as one does right after another, its own sums say so, and nothing is noted.
fn first_near(ours: u8, bytes: &[u8], count: usize) -> Option<usize>
    requires { (0 < count) × (count ≤ length bytes.now - 11) × (count ≤ 3845) }
    ensures { IsFirst ours bytes.now count result }
{
    if holds_frame(ours, bytes, 0) {
        Some(0)
    } else {
        first_noted(ours, bytes, count)
    }
}

// The first of the first `limit` starts that holds a good frame. They are looked through in parts of 3,845: the longest frame
// from the last of these ends 4,096 bytes on, and over so many the sums do not leave 32 bits.
fn first_frame(ours: u8, bytes: &[u8], limit: usize) -> Option<usize>
    requires { limit ≤ length bytes.now - 11 }
    ensures { IsFirst ours bytes.now limit result }
{
    let mut at = 0;
    // By `while`: with `(0..limit).step_by(3845)` it is slower (`bench/run instructions`: worst 272,235 for 260,687).
    while at < limit {
        let count = (limit - at).min(3845);
        if let Some(found) = first_near(ours, &bytes[at..], count) {
            return Some(at + found);
        }
        at += count;
    }
    None
}

// Looks for a good frame that a system with our subnet takes, among the first `budget` starts.
#[tactic(auto, using(crate::proofs::Laws::says_found, crate::proofs::Laws::says_spent, crate::proofs::Laws::says_nothing))]
pub fn find(ours: u8, bytes: &[u8], budget: usize) -> Finding
    ensures { told result ≡ finding ours bytes.now budget }
{
    // so many places have the twelve bytes of a shortest frame before the end
    let starts = bytes.len().saturating_sub(11);
    match first_frame(ours, bytes, budget.min(starts)) {
        Some(start) => Finding::Found {
            start,
            length: 12 + length_at(bytes, start),
            tried: start + 1,
        },
        None if budget < starts => Finding::Spent(budget),
        None => Finding::Nothing(starts),
    }
}

// What `find` finds, for C.
#[tactic(auto, unfolding(crate::specs::Numbers::find_numbers, ground::specs::Choose::choose))]
pub fn nadrelgos_find(ours: u8, bytes: &[u8], budget: usize) -> FindNumbers
    ensures { result ≡ find_numbers (finding ours bytes.now budget) }
{
    let (number, start, length, tried) = match find(ours, bytes, budget) {
        Finding::Found {
            start,
            length,
            tried,
        } => (1, start, length, tried),
        Finding::Nothing(tried) => (2, 0, 0, tried),
        Finding::Spent(tried) => (3, 0, 0, tried),
    };
    FindNumbers {
        number,
        start,
        length,
        tried,
    }
}
