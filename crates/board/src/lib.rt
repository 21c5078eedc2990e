// The boards that the panel knows: a record for each of forty positions, and what the steps ask about them.
// A position is a number from 1 on; position 0 and those past the table name nobody, and hold the blank record. So whoever
// looks for a position is answered 0 where there is none, which is the rule book's "nobody".
// Most is asked of columns, an array for each field of forty records: a step notes those that it asks, once for all.
#![tactic(auto)]

ghost use Rattle.std.specs.Prelude.{◌≡◌, ◌∷◌, ℕ, get_or, set, ◌+◌, ◌-◌, ◌≤◌, ◌<◌, min, unwrap_or};
ghost use Rattle.ground.specs.Below.{one, among, first_or, up_from};
ghost use Rattle.board.specs.Node.{none, is_kind, is_version, version_of};
ghost use Rattle.board.specs.Table.{listed_at};
ghost use Rattle.board.specs.declared.Wanted.TheVariants.{Kind};
ghost use Rattle.board.specs.Columns.{typed_as, typed, lowest_in, column_at, column_with, forty};
ghost use Rattle.board.specs.Types.{type_count, many_in, is_unmarked};
ghost use Rattle.board.specs.Change.{joined_node, owe, unmarked, heard, missed, renewed};
ghost use Rattle.board.specs.Index.{indexed};
ghost use Rattle.board.specs.Wanted.{wants, wanted_at, lowest_of, of_kind_below, index_of};
ghost use Rattle.board.specs.Round.{next_listed};

// What the panel knows of the board at one position. `owed` is 1 where the node list is owed to it, else 0: what a host
// lends holds numbers only, so that every bit pattern has a meaning. `index` is how many lower listed positions are of its
// type, `version` 1 of a 1.0 board and 2 of a later one; both are 0 where nobody is listed.
#[repr(C)]
#[derive(Clone, Copy, PartialEq, Eq, Default)]
pub struct Node {
    pub kind: u8,
    pub mac: u64,
    pub session: u64,
    pub misses: u8,
    pub owed: u8,
    pub index: u8,
    pub version: u8,
}

// The records of positions 1 to 40.
#[repr(C)]
#[derive(Clone, Copy, PartialEq, Eq)]
pub struct Table {
    pub nodes: [Node; 40],
}

// What is seen of forty records, column by column: the type, the stored index, the version and the MAC of each listed board, 0
// where nobody is.
#[derive(Clone, Copy)]
pub struct Columns {
    pub kinds: [u8; 40],
    pub indexes: [u8; 40],
    pub versions: [u8; 40],
    pub macs: [u64; 40],
}

// What is looked for at a position: a listed board, a free position, a board to which the list is owed, one of a type,
// one with a MAC.
#[derive(Clone, Copy, PartialEq, Eq)]
pub enum Wanted {
    Listed,
    Free,
    Owed,
    Kind(u8),
    Mac(u64),
}

// The record of a free position: all zeros.
pub fn blank_node() -> Node
    ensures { result ≡ none }
{
    Node::default()
}

// The version of a record by the one that a join gives.
#[tactic(auto, unfolding(ground::specs::Choose::choose))]
pub fn version_of(version: u8) -> u8
    ensures { result ≡ version_of version }
{
    if version == 1 { 1 } else { 2 }
}

// A board's type is neither 0 nor the coordinator's.
pub fn is_kind(kind: u8) -> bool
    ensures { result ≡ is_kind kind }
{
    !matches!(kind, 0 | 165)
}

// The version of a listed board is 1 or 2.
pub fn is_version(version: u8) -> bool
    ensures { result ≡ is_version version }
{
    matches!(version, 1 | 2)
}

// The record of a board that joins, for the first time or again. The list is owed to all afterwards, this board included,
// and every index is counted anew.
pub fn joined_node(kind: u8, mac: u64, session: u64, version: u8) -> Node
    ensures { result ≡ joined_node kind mac session version }
{
    Node {
        kind,
        mac,
        session,
        version: version_of(version),
        ..Node::default()
    }
}

// The record of a board to which the list is owed. A free position's record stays as it is.
// Here and below a field is set: `Node { owed: 1, ..node }` stores padding too (`bench/run instructions`: a frame 2,199 for 2,084).
#[tactic(auto, unfolding(ground::specs::Choose::choose))]
pub fn owe(mut node: Node) -> Node
    ensures { result ≡ owe node }
{
    if node.kind != 0 {
        node.owed = 1;
    }
    node
}

// The record of a board that has been sent the list.
pub fn unmarked(mut node: Node) -> Node
    ensures { result ≡ unmarked node }
{
    node.owed = 0;
    node
}

// The record of a board of which a frame was accepted.
pub fn heard(mut node: Node) -> Node
    ensures { result ≡ heard node }
{
    node.misses = 0;
    node
}

// The record of a board that did not answer.
pub fn missed(mut node: Node) -> Node
    ensures { result ≡ missed node }
{
    node.misses = node.misses.saturating_add(1);
    node
}

// The record of a board that has another session.
pub fn renewed(mut node: Node, session: u64) -> Node
    ensures { result ≡ renewed node session }
{
    node.session = session;
    node
}

// The record of a board that has this index.
pub fn indexed(mut node: Node, index: u8) -> Node
    ensures { result ≡ indexed node index }
{
    node.index = index;
    node
}

// Whether a record of this type is what is looked for. Of a record that is made from its type alone (`typed`) no mark and no MAC
// is known, and both are 0: none is owed the list, and a listed one is found only by MAC 0.
fn is_wanted(wanted: Wanted, kind: u8) -> bool
    ensures { result ≡ wants wanted (typed_as kind) }
{
    match wanted {
        Wanted::Listed => kind != 0,
        Wanted::Free => kind == 0,
        Wanted::Owed => false,
        Wanted::Kind(k) => kind != 0 && kind == k,
        Wanted::Mac(mac) => kind != 0 && mac == 0,
    }
}

// A count of the records of a type, with one more where this one is of it; it stops at 255. Nobody is of type 0, and that is
// tested first: the compiler then leaves out the loop that would count it.
pub fn counted(count: u8, kind: u8, node: Node) -> u8
    ensures { result ≡ min (count + one (wants (Kind kind) node)) 255 }
{
    if kind == 0 || node.kind != kind {
        return count;
    }
    count.saturating_add(1)
}

// The first position after one, up to a limit, that is wanted.
fn first_after(kinds: &[u8; 40], wanted: Wanted, after: usize, limit: usize) -> Option<usize>
    requires { (after ≤ limit) × (limit ≤ 40) }
    ensures { (d : ℕ) → unwrap_or result d ≡ first_or d (wanted_at wanted (typed kinds.now)) (up_from (after + 1) (limit - after)) }
{
    kinds[after..limit]
        .iter()
        .position(|kind| is_wanted(wanted, *kind))
        .map(|i| after + 1 + i)
}

// The lowest position from 1 to the limit that is wanted; 0 for none.
#[tactic(auto, unfolding(crate::specs::Wanted::lowest_of))]
pub fn lowest(kinds: &[u8; 40], wanted: Wanted, limit: usize) -> usize
    ensures { result ≡ lowest_of (typed kinds.now) wanted limit }
{
    first_after(kinds, wanted, 0, limit.min(40)).unwrap_or(0)
}

// What stands at a position of a column; `none` at position 0 and past the table.
fn at<T: Copy>(column: &[T; 40], position: usize, none: T) -> T
    ensures { result ≡ get_or (none ∷ column.now) position none }
{
    if 0 < position && position <= 40 {
        column[position - 1]
    } else {
        none
    }
}

// Whether a board is listed at a position.
#[tactic(auto, using(crate::proofs::Column::listed_read))]
pub fn listed_at(kinds: &[u8; 40], position: usize) -> bool
    ensures { result ≡ listed_at (typed kinds.now) position }
{
    byte_at(kinds, position) != 0
}

// The first listed position after another, going round from k to 1; 0 where nobody is listed there.
pub fn next_listed(kinds: &[u8; 40], k: usize, after: usize) -> usize
    ensures { result ≡ next_listed (typed kinds.now) k after }
{
    let top = k.min(40);
    let last = after.min(top);
    first_after(kinds, Wanted::Listed, last, top)
        .or_else(|| first_after(kinds, Wanted::Listed, 0, last))
        .unwrap_or(0)
}

// How many boards of a kind there are at the positions below one.
#[tactic(auto, using(crate::proofs::Column::wanted_below))]
fn kind_below(kinds: &[u8; 40], kind: u8, position: usize) -> usize
    requires { (0 < position) × (position ≤ 40) }
    ensures { result ≡ of_kind_below (typed kinds.now) kind position }
{
    kinds[..position - 1]
        .iter()
        .filter(|other| is_wanted(Wanted::Kind(kind), **other))
        .count()
}

// A board's index as it is counted: the number of lower listed positions of its kind; 0 where nobody is listed.
pub fn index_of(kinds: &[u8; 40], position: usize) -> usize
    ensures { result ≡ index_of (typed kinds.now) position }
{
    if !listed_at(kinds, position) {
        return 0;
    }
    kind_below(kinds, kinds[position - 1], position)
}

// What a column of bytes, the stored indexes or the versions, holds at a position; 0 at position 0 and past the table. This and
// `mac_at` are names of `at`, for a clause over columns of numbers.
#[tactic(auto, using(crate::proofs::Column::column_held))]
pub fn byte_at(column: &[u8; 40], position: usize) -> u8
    ensures { result ≡ column_at column.now position }
{
    at(column, position, 0)
}

// A column of bytes with another value at a position; as it was at position 0 and past the table.
#[tactic(auto, unfolding(ground::specs::Choose::choose))]
pub fn with_byte(column: &[u8; 40], position: usize, value: u8) -> [u8; 40]
    ensures { result ≡ column_with column.now position value }
{
    let mut after = *column;
    if 0 < position && position <= 40 {
        after[position - 1] = value;
    }
    after
}

// The lowest position from 1 to the limit that has a MAC; 0 for none.
pub fn lowest_mac(macs: &[u64; 40], mac: u64, limit: usize) -> usize
    ensures { result ≡ lowest_in macs.now mac limit }
{
    macs[..limit.min(40)]
        .iter()
        .position(|m| *m == mac)
        .map_or(0, |i| i + 1)
}

// The MAC at a position; 0 at position 0 and past the table.
#[tactic(auto, using(crate::proofs::Column::column_held))]
pub fn mac_at(macs: &[u64; 40], position: usize) -> u64
    ensures { result ≡ column_at macs.now position }
{
    at(macs, position, 0)
}

// Whether a type is met for the first time, by the marks of those met before; it is marked now. Nobody is of type 0. That a
// type is a byte is told to the caller, who has a column of them. A mark is a number, since `Marks` counts by it.
pub fn mark(marks: &mut [u8; 256], kind: u8) -> bool
    ensures { (result ≡ is_unmarked marks.old kind) × (marks.new ≡ set marks.old kind 1) × (kind < 256) }
{
    let k = usize::from(kind);
    let before = marks[k];
    marks[k] = 1;
    kind != 0 && before == 0
}

// Whether a column of versions has a 1.0 board's.
pub fn has_old(versions: &[u8; 40]) -> bool
    ensures { result ≡ among 1 (forty versions.now) }
{
    // A fold has no way out, so that the compiler does many at a time; `contains` made `too_many_with` 196 instructions for 98 (objdump).
    versions
        .iter()
        .fold(false, |old, version| old | (*version == 1))
}

// How many different types there are, this one and those of a column.
fn type_count(kind: u8, kinds: &[u8; 40]) -> usize
    ensures { result ≡ type_count (kind ∷ forty kinds.now) }
{
    let mut marks = [0u8; 256];
    let mut n = usize::from(mark(&mut marks, kind));
    for other in kinds {
        n += usize::from(mark(&mut marks, *other));
    }
    n
}

// Whether a 1.0 board is listed with more than 15 types, among a board of this type and version and those of the columns but
// for the one at a position, 0 for none. The types are counted only where there is a 1.0 board.
pub fn too_many_with(columns: &Columns, but: usize, kind: u8, version: u8) -> bool
    ensures { result ≡ many_in columns.now.kinds columns.now.versions but kind version }
{
    let theirs = with_byte(&columns.versions, but, 0);
    if version != 1 && !has_old(&theirs) {
        return false;
    }
    let others = with_byte(&columns.kinds, but, 0);
    15 < type_count(kind, &others)
}
