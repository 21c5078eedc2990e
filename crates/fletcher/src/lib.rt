// The checksum of a CT-485 frame: two running sums over its bytes.
#![tactic(auto)]

ghost use Rattle.std.specs.Prelude.{◌≡◌, ◌-◌, ◌*◌, ◌/◌, ◌%◌, ◌<◌, ◌≤◌, length};
ghost use Rattle.fletcher.specs.Fletcher.{seed, sums_from, reduced, sums, is_good, check_bytes};
ghost use Rattle.fletcher.specs.Joined.{run_of, joined, started, sums_of, closing, is_good_run};

// The two sums. Each is below 255 wherever this crate made them.
#[derive(Clone, Copy)]
pub struct Sums {
    pub first: u32,
    pub second: u32,
}

// A run of bytes: its sums by itself, from 0 and 0, of which the remainders need not be taken, and its length.
#[derive(Clone, Copy)]
pub struct Run {
    pub first: u32,
    pub second: u32,
    pub length: u32,
}

// The remainder by 255 of a number below 510: 255 is subtracted where it is in it.
fn less_255(sum: u32) -> u32
    requires { sum < 510 }
    ensures { result ≡ sum % 255 }
{
    if sum < 255 { sum } else { sum - 255 }
}

// A number less 255 for each 256 in it: its remainder by 255 stays, and it falls to little more than its 256th part.
fn lowered(sum: u32) -> u32
    ensures { result ≡ sum - 255 * (sum / 256) }
{
    let times = sum >> 8;
    sum - ((times << 8) - times)
}

// The remainder by 255 of any number, by comparing and subtracting in falling steps.
fn remainder(sum: u32) -> u32
    ensures { result ≡ sum % 255 }
{
    let mut rest = sum;
    while 510 <= rest {
        rest = lowered(rest);
    }
    less_255(rest)
}

// Sums of which the remainders are taken.
// `Sums` itself has no such invariant: `check_after` is given sums of any size, and other crates make their own.
#[derive(Clone, Copy)]
struct Reduced {
    sums: Sums,
    ghost first: { sums.first < 255 },
    ghost second: { sums.second < 255 },
}

impl Reduced {
    // The remainders of sums.
    fn new(sums: Sums) -> Reduced
        ensures { result.sums ≡ reduced sums.first sums.second }
    {
        Reduced {
            sums: Sums {
                first: remainder(sums.first),
                second: remainder(sums.second),
            },
        }
    }

    // These sums continued over few enough bytes that they have room to grow: one remainder of each at the end does for all.
    #[tactic(auto, using(crate::proofs::Laws::summing))]
    fn continued(self, bytes: &[u8]) -> Reduced
        requires { length bytes.now ≤ 4096 }
        ensures { result.sums ≡ sums_from self.sums bytes.now }
    {
        let Sums {
            mut first,
            mut second,
        } = self.sums;
        for byte in bytes {
            first += u32::from(*byte);
            second += first;
        }
        Reduced::new(Sums { first, second })
    }

    // These sums continued over any bytes.
    #[tactic(auto, using(crate::proofs::Laws::summing))]
    fn after(self, bytes: &[u8]) -> Reduced
        ensures { result.sums ≡ sums_from self.sums bytes.now }
    {
        let mut reduced = self;
        for part in bytes.chunks(4096) {
            reduced = reduced.continued(part);
        }
        reduced
    }
}

// What the sums over a frame start at.
pub fn seed() -> Sums
    ensures { result ≡ seed }
{
    Sums {
        first: 170,
        second: 0,
    }
}

// The sums over bytes from the first to the last.
pub fn sums_over(bytes: &[u8]) -> Sums
    ensures { (result ≡ sums bytes.now) × (result.first < 255) × (result.second < 255) }
{
    Reduced { sums: seed() }.after(bytes).sums
}

// Whether bytes, their check bytes among them, are a good frame's.
pub fn good(bytes: &[u8]) -> bool
    ensures { result ≡ is_good bytes.now }
{
    let s = sums_over(bytes);
    s.first == 0 && s.second == 0
}

// Whether a run is a good frame's. The seed's 170 and 85 make 255; few runs pass that test, and only they are tested further.
pub fn good_run(run: Run) -> bool
    ensures { result ≡ is_good_run run }
{
    remainder(run.first) == 85
        && remainder(remainder(run.second) + remainder(run.length) * 170) == 0
}

// The two check bytes after bytes, where the sums over all before these bytes are given.
#[tactic(auto, using(crate::proofs::Joined::continued_joined))]
pub fn check_after(before: Sums, bytes: &[u8]) -> [u8; 2]
    ensures { result ≡ closing (sums_of (joined (started before) (run_of bytes.now))) }
{
    let s = Reduced::new(before).after(bytes).sums;
    let first = 255 - less_255(s.first + s.second);
    let second = 255 - less_255(s.first + first);
    [first as u8, second as u8]
}

// The two check bytes that make these bytes good.
#[tactic(auto, using(crate::proofs::Joined::seed_once_lem))]
pub fn check_bytes(bytes: &[u8]) -> [u8; 2]
    ensures { result ≡ check_bytes bytes.now }
{
    check_after(seed(), bytes)
}
