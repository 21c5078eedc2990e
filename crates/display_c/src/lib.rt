// Texts and faults for C: the faces of display, as an archive that C links.
// Each calls the function of its name there, and promises the same.
#![tactic(auto)]

ghost use Rattle.std.specs.Prelude.{◌≡◌, length};
ghost use Rattle.ground.specs.Bytes.{laid};
ghost use Rattle.frame.specs.Frame.{write_numbers};
ghost use Rattle.display.specs.Messages.{read_display, write_display, display_bytes, read_diagnostics, write_diagnostics, diagnostics_bytes, is_reply};
ghost use Rattle.display.specs.Numbers.{display_numbers, diagnostics_numbers};

use display::TextNumbers;
use frame::WriteNumbers;

// What `read_display` reads, for C.
#[unsafe(no_mangle)]
pub extern "C" fn nadrelgos_read_display(payload: &[u8]) -> TextNumbers
    ensures { result ≡ display_numbers (read_display payload.now) }
{
    display::nadrelgos_read_display(payload)
}

// What `read_diagnostics` reads, for C.
#[unsafe(no_mangle)]
pub extern "C" fn nadrelgos_read_diagnostics(payload: &[u8]) -> TextNumbers
    ensures { result ≡ diagnostics_numbers (read_diagnostics payload.now) }
{
    display::nadrelgos_read_diagnostics(payload)
}

// `write_display` for C.
#[unsafe(no_mangle)]
pub extern "C" fn nadrelgos_write_display(kind: u8, text: &[u8], out: &mut [u8]) -> WriteNumbers
    ensures { (result ≡ write_numbers (write_display kind text.now (length out.old))) × (out.new ≡ laid (display_bytes kind text.now (length out.old)) out.old) }
{
    display::nadrelgos_write_display(kind, text, out)
}

// `write_diagnostics` for C.
#[unsafe(no_mangle)]
pub extern "C" fn nadrelgos_write_diagnostics(
    kind: u8,
    major: u8,
    minor: u8,
    text: &[u8],
    out: &mut [u8],
) -> WriteNumbers
    ensures { (result ≡ write_numbers (write_diagnostics kind major minor text.now (length out.old))) × (out.new ≡ laid (diagnostics_bytes kind major minor text.now (length out.old)) out.old) }
{
    display::nadrelgos_write_diagnostics(kind, major, minor, text, out)
}

// `is_reply` for C.
#[unsafe(no_mangle)]
pub extern "C" fn nadrelgos_is_reply(payload: &[u8]) -> bool
    ensures { result ≡ is_reply payload.now }
{
    display::nadrelgos_is_reply(payload)
}
