// The node list: the bytes that tell every board which types stand at which positions, written, measured and compared.
#![tactic(auto)]

ghost use Rattle.std.specs.Prelude.{◌≡◌, [], ◌∷◌, ◌-◌, ◌≤◌, ◌<◌, eqb, get_or, drop, unwrap_or, IfSome};
ghost use Rattle.ground.specs.Below.{first_or, up_from};
ghost use Rattle.board.specs.Columns.{typed};
ghost use Rattle.board.specs.Types.{Marks};
ghost use Rattle.nodelist.specs.Condensed.{standing_to, filled_to, condensed};
ghost use Rattle.nodelist.specs.List.{length_to, written_to, output_to, told, same_bytes, list_to, list_over};

use board::Columns;
use refusal::Refusal;

// How many bytes the list has, up to the highest listed position, which the caller has found.
pub fn list_length(top: usize) -> usize
    ensures { result ≡ length_to top }
{
    top.min(40) + 1
}

// Writes the list at the front of the output, and answers how many bytes it has; no byte changes where it does not fit.
pub fn write_list(
    internal: u8,
    kinds: &[u8; 40],
    top: usize,
    out: &mut [u8],
) -> Result<usize, Refusal>
    ensures { (told result ≡ written_to top out.old) × (out.new ≡ output_to top internal (typed kinds.now) out.old) }
{
    let n = list_length(top);
    if out.len() < n {
        return Err(Refusal::NoRoom);
    }
    out[0] = internal;
    out[1..n].copy_from_slice(&kinds[..n - 1]);
    Ok(n)
}

// The lowest open byte of a condensed list, from one on.
fn open_from(list: &[u8; 16], from: usize) -> Option<usize>
    requires { from ≤ 16 }
    ensures found { unwrap_or result 16 ≡ first_or 16 (λ i. eqb (get_or list.now i 0) 0) (up_from from (16 - from)) }
    ensures within { IfSome result (λ i. i < 16) }
{
    (from..16).find(|i| list[*i] == 0)
}

// The internal type, and the 1.0 boards at their positions, each type once; the types are marked.
fn stand(internal: u8, columns: &Columns, marks: &mut [u8; 256]) -> [u8; 16]
    requires { Marks [] marks.old }
    ensures { (result ≡ internal ∷ standing_to columns.now.kinds columns.now.versions 15) × Marks (standing_to columns.now.kinds columns.now.versions 15) marks.new }
{
    let mut list = [0u8; 16];
    list[0] = internal;
    // By index: three arrays are gone through side by side, of which one is written one place further on.
    for i in 0..15 {
        let kind = columns.kinds[i];
        if columns.versions[i] == 1 && board::mark(marks, kind) {
            list[i + 1] = kind;
        }
    }
    list
}

// Puts each other type into the lowest open byte, as long as there is one. The next is looked for behind the one just
// filled.
fn fill(list: &mut [u8; 16], marks: &mut [u8; 256], kinds: &[u8; 40])
    requires { Marks (drop 1 list.old) marks.old }
    ensures { list.new ≡ get_or list.old 0 0 ∷ filled_to (drop 1 list.old) kinds.now 40 }
{
    let mut lowest = open_from(list, 1);
    for kind in kinds {
        let Some(i) = lowest else {
            break;
        };
        if board::mark(marks, *kind) {
            list[i] = *kind;
            lowest = open_from(list, i + 1);
        }
    }
}

// The list for a 1.0 board. A mark for each type that it has tells at once whether another is new.
#[tactic(auto, using(board::proofs::Types::marks_none, crate::proofs::Passes::stood_filling, crate::proofs::Passes::both_passes))]
pub fn condense(internal: u8, columns: &Columns) -> [u8; 16]
    ensures { result ≡ condensed internal columns.now.kinds columns.now.versions }
{
    let mut marks = [0u8; 256];
    let mut list = stand(internal, columns, &mut marks);
    fill(&mut list, &mut marks, &columns.kinds);
    list
}

// Whether the bytes received are the whole list, byte for byte.
fn same_whole(internal: u8, kinds: &[u8; 40], top: usize, received: &[u8]) -> bool
    ensures { result ≡ same_bytes (list_to top internal (typed kinds.now)) received.now }
{
    let types = &kinds[..top.min(40)];
    match received {
        [first, rest @ ..] => *first == internal && rest == types,
        [] => false,
    }
}

// Whether the bytes received are the list for a board of a version.
pub fn same_list(version: u8, internal: u8, columns: &Columns, top: usize, received: &[u8]) -> bool
    ensures { result ≡ same_bytes (list_over version top internal columns.now.kinds columns.now.versions) received.now }
{
    if version == 1 {
        return received == condense(internal, columns).as_slice();
    }
    same_whole(internal, &columns.kinds, top, received)
}
