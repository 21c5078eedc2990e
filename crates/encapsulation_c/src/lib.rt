// Messages inside messages for C: the faces of encapsulation, as an archive that C links.
// Each calls the function of its name there, and promises the same.
#![tactic(auto)]

ghost use Rattle.std.specs.Prelude.{◌≡◌, length};
ghost use Rattle.ground.specs.Bytes.{laid};
ghost use Rattle.frame.specs.Frame.{write_numbers};
ghost use Rattle.encapsulation.specs.Unwrap.{unwrapping};
ghost use Rattle.encapsulation.specs.Wrap.{wrapping, wrapped_bytes};
ghost use Rattle.encapsulation.specs.Answer.{unwrap_numbers};

use encapsulation::{Levels, UnwrapNumbers};
use frame::{Header, WriteNumbers};

// What `unwrap` finds, for C.
#[unsafe(no_mangle)]
pub extern "C" fn nadrelgos_unwrap(ours: u8, received: &[u8]) -> UnwrapNumbers
    ensures { result ≡ unwrap_numbers (unwrapping ours received.now) }
{
    encapsulation::nadrelgos_unwrap(ours, received)
}

// `wrap` for C.
#[unsafe(no_mangle)]
pub extern "C" fn nadrelgos_wrap(
    header: Header,
    levels: Levels,
    depth: usize,
    payload: &[u8],
    out: &mut [u8],
) -> WriteNumbers
    ensures { (result ≡ write_numbers (wrapping header levels.levels depth payload.now (length out.old))) × (out.new ≡ laid (wrapped_bytes header levels.levels depth payload.now (length out.old)) out.old) }
{
    encapsulation::nadrelgos_wrap(header, levels, depth, payload, out)
}
