// The panel's setup: the pool of addresses, the bytes that its frames carry, its own MAC and session. And the part of
// "fit" that speaks of the setup and of the table.
#![tactic(auto)]

ghost use Rattle.std.specs.Prelude.{◌≡◌, [], ◌-◌, ◌<◌, min, length, get_or};
ghost use Rattle.refusal.specs.Refusal.{ruled, refuses, gives};
ghost use Rattle.board.specs.Node.{is_mac, is_blank, in_range};
ghost use Rattle.setup.specs.Setup.{are_rising, is_pool, shipped_pool, address, subnet_of, setup_fits, setup_rules, told_of};
ghost use Rattle.setup.specs.Fit.{record_fits, apart_from, board_fits, tallied_one};
ghost use Rattle.ground.specs.Below.{all};

use board::{Columns, Node};
use refusal::Refusal;

// The first k of the pool are in use. `internal` is the type of the virtual internal subordinate.
#[repr(C)]
#[derive(Clone, Copy)]
pub struct Setup {
    pub pool: [u8; 40],
    pub k: usize,
    pub subnet: u8,
    pub internal: u8,
    pub mac: u64,
    pub session: u64,
}

// Each is below the next. There is no way out of the loop: the compiler then compares several at once.
// `is_sorted_by` has one, and takes 287 instructions on forty addresses for 118 (`valgrind --tool=callgrind`, x86-64).
fn are_rising(addresses: &[u8]) -> bool
    ensures { result ≡ are_rising addresses.now (length addresses.now - 1) }
{
    let mut rising = true;
    for pair in addresses.windows(2) {
        rising &= pair[0] < pair[1];
    }
    rising
}

// A pool: 1 to 40 addresses, strictly rising, each 1 to 254. Where they rise, the first and the last tell whether all are 1
// to 254.
#[tactic(auto, using(crate::proofs::Pools::pool_tests))]
pub fn is_pool(addresses: &[u8]) -> bool
    ensures { result ≡ is_pool addresses.now }
{
    let k = addresses.len();
    0 < k && k <= 40 && 0 < addresses[0] && addresses[k - 1] <= 254 && are_rising(addresses)
}

// 16 to 55.
const SHIPPED: [u8; 40] = [
    16, 17, 18, 19, 20, 21, 22, 23, 24, 25, 26, 27, 28, 29, 30, 31, 32, 33, 34, 35, 36, 37, 38, 39,
    40, 41, 42, 43, 44, 45, 46, 47, 48, 49, 50, 51, 52, 53, 54, 55,
];

// The pool that the panel is shipped with.
#[tactic(auto, unfolding(ground::specs::Below::up_from))]
pub fn shipped_pool() -> [u8; 40]
    ensures { result ≡ shipped_pool }
{
    SHIPPED
}

// The address for which a position stands; 0, nobody's, where the position is none of 1 to k.
#[tactic(auto, using(crate::proofs::Addresses::addressing))]
pub fn address_at(setup: Setup, position: usize) -> u8
    ensures { result ≡ address setup position }
{
    if 0 < position && position <= setup.k.min(40) {
        setup.pool[position - 1]
    } else {
        0
    }
}

// The subnet of a board of a version: a 1.0 board's is 2, every other's ours.
#[tactic(auto, unfolding(ground::specs::Choose::choose))]
pub fn subnet_of(setup: Setup, version: u8) -> u8
    ensures { result ≡ subnet_of setup version }
{
    if version == 1 { 2 } else { setup.subnet }
}

// A MAC is 1 to 2^56 - 1.
pub fn is_mac(mac: u64) -> bool
    ensures { result ≡ is_mac mac }
{
    0 < mac && mac < 0x100_0000_0000_0000
}

// The setup is fit: its pool and its own MAC.
#[tactic(auto, using(crate::proofs::Pools::pool_tests), unfolding(crate::specs::Setup::setup_fits))]
pub fn setup_fits(setup: Setup) -> bool
    ensures { result ≡ setup_fits setup }
{
    setup.k <= 40 && is_pool(&setup.pool[..setup.k]) && is_mac(setup.mac)
}

// What the setup step refuses: a pool that is none, then a MAC outside its range.
#[tactic(auto, unfolding(ground::specs::Choose::choose))]
pub fn judge_setup(addresses: &[u8], mac: u64) -> Result<(), Refusal>
    ensures { told_of result ≡ ruled (setup_rules addresses.now mac) refuses (gives []) }
{
    if !is_pool(addresses) {
        return Err(Refusal::BadPool);
    }
    if !is_mac(mac) {
        return Err(Refusal::BadMac);
    }
    Ok(())
}

// A listed record within its ranges.
// Past the MAC the tests are one: by `&&`, here and in `record_fits`, a record takes 30 instructions for 25 (callgrind).
fn in_range(node: Node) -> bool
    ensures { result ≡ in_range node }
{
    is_mac(node.mac)
        && board::is_kind(node.kind)
            & (node.misses <= 2)
            & (node.owed <= 1)
            & board::is_version(node.version)
}

// All zeros. The wide fields are left first: the compiler then tests the bytes together.
// A derived `==` with a blank record, which tests field by field, takes 15 instructions for 11 (callgrind).
fn is_blank(node: Node) -> bool
    ensures { result ≡ is_blank node }
{
    node.mac == 0
        && node.session == 0
        && (node.kind == 0)
            & (node.misses == 0)
            & (node.owed == 0)
            & (node.index == 0)
            & (node.version == 0)
}

// The record at index i, that is at position i + 1, is fit among k positions.
#[tactic(auto, unfolding(crate::specs::Fit::record_fits))]
pub fn record_fits(k: usize, i: usize, node: Node) -> bool
    ensures { result ≡ record_fits k i node }
{
    if node.kind == 0 {
        is_blank(node)
    } else {
        (i < k) & in_range(node)
    }
}

// The MAC at index i is 0, which is nobody's and is compared with none, or none of those before it. How many it is compared
// with is known before the loop, and there is no way out of it: the compiler then compares several at once.
// `contains` has one, and takes 209 instructions on the fortieth for 146 (callgrind). In the loop the MAC is not 0, but
// without the test of that `boards_fit` takes 3,985 instructions on forty boards for 3,902.
#[tactic(auto, using(ground::proofs::Loops::loops))]
fn apart_from_lower(macs: &[u64; 40], i: usize) -> bool
    requires { i < 40 }
    ensures { result ≡ apart_from macs.now i }
{
    let mac = macs[i];
    let compared = if mac == 0 { 0 } else { i };
    let mut apart = true;
    for other in &macs[..compared] {
        apart &= (mac == 0) | (mac != *other);
    }
    apart
}

// How many of a type were tallied before, and one more of it now; 0 is nobody's type.
#[tactic(auto, unfolding(ground::specs::Choose::choose))]
fn tally_one(tally: &mut [u8; 256], kind: u8) -> u8
    requires { get_or tally.old kind 0 < 255 }
    ensures before { result ≡ get_or tally.old kind 0 }
    ensures tallied { tally.new ≡ tallied_one tally.old kind }
{
    let k = usize::from(kind);
    let before = tally[k];
    if kind != 0 {
        tally[k] = before + 1;
    }
    before
}

// Of the first of forty boards, no MAC but 0 stands twice, and each index is the counted one: each pair of MACs is compared
// once, and in the same pass the boards of each type are counted.
// The columns stand apart in `Columns`: MACs that lie together are compared several at once. By index, since it goes over three of them at one place.
pub fn boards_fit(columns: &Columns, count: usize) -> bool
    ensures { result ≡ all (board_fits columns.now.kinds columns.now.indexes columns.now.macs) (min count 40) }
{
    let mut tally = [0u8; 256];
    let mut fit = true;
    for i in 0..count.min(40) {
        let before = tally_one(&mut tally, columns.kinds[i]);
        fit &= apart_from_lower(&columns.macs, i) & (columns.indexes[i] == before);
    }
    fit
}
