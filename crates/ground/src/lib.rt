// What every crate above stands on. Its weight is in specs/ (tests below a bound, choices, bytes laid over a buffer) and
// in proofs/ (the laws by which loops and choices are proved); the code is the four functions that need no other home.
#![tactic(auto)]

ghost use Rattle.std.specs.Prelude.{◌≡◌, ◌≤◌, min, length};
ghost use Rattle.std.proofs.Math.Seq.{paste};
ghost use Rattle.ground.specs.Below.{one};
ghost use Rattle.ground.specs.Bytes.{fitting, padded};

// What a test adds to a count. This and `least` are the library's `usize::from` and `min`, under the names that definitions over counts have (`one`, `min`).
pub fn one_if(b: bool) -> usize
    ensures { (result ≡ one b) × (result ≤ 1) }
{
    usize::from(b)
}

// The smaller of two numbers.
pub fn least(a: usize, b: usize) -> usize
    ensures { result ≡ min a b }
{
    a.min(b)
}

// Copies bytes over out from `at` on, as many as there is room for. Byte by byte: by the library's `copy_from_slice` every archive with a writer would
// need `memmove` of C's library, and those of display and shared data need nothing of it (include/nadrelgos.h).
pub fn lay(out: &mut [u8], at: usize, bytes: &[u8])
    ensures { out.new ≡ paste out.old at bytes.now (fitting (length bytes.now) at (length out.old)) }
{
    let start = at.min(out.len());
    let n = bytes.len().min(out.len() - start);
    for i in 0..n {
        out[start + i] = bytes[i];
    }
}

// The bytes, and zeros in the places that they leave; as many bytes as there is room for.
#[tactic(auto, using(crate::proofs::Laid::padded_pasted))]
pub fn padded<const N: usize>(bytes: &[u8]) -> [u8; N]
    ensures { result ≡ padded N bytes.now }
{
    let mut places = [0; N];
    lay(&mut places, 0, bytes);
    places
}
