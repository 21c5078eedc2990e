// What the benchmark calls: the proved functions for C, each with its answer as plain numbers.
#![tactic(auto)]

ghost use Rattle.std.specs.Prelude.{◌≡◌, length};
ghost use Rattle.ground.specs.Bytes.{laid};
ghost use Rattle.fletcher.specs.Fletcher.{is_good};
ghost use Rattle.frame.specs.Frame.{reading, writing, written_bytes, write_numbers};
ghost use Rattle.frame.specs.ReadyHeader.{ready_of, ready_bytes};
ghost use Rattle.measure.specs.Numbers.{read_numbers};

use frame::{Header, Ready, WriteNumbers};

// A reading: the refusal's number or 0, and the header and the payload's length, all 0 on a refusal.
#[repr(C)]
#[derive(Clone, Copy)]
pub struct ReadNumbers {
    pub refusal: u8,
    pub header: Header,
    pub length: usize,
}

// Whether bytes are good.
#[unsafe(no_mangle)]
pub extern "C" fn measure_good(bytes: &[u8]) -> bool
    ensures { result ≡ is_good bytes.now }
{
    fletcher::good(bytes)
}

// Reads bytes as one whole frame that a system with our subnet takes.
#[unsafe(no_mangle)]
pub extern "C" fn measure_read(ours: u8, bytes: &[u8]) -> ReadNumbers
    ensures { result ≡ read_numbers (reading ours bytes.now) }
{
    match frame::read(ours, bytes) {
        Ok(frame) => ReadNumbers {
            refusal: 0,
            header: frame.header,
            length: frame.length,
        },
        Err(refusal) => ReadNumbers {
            refusal: refusal::number(refusal),
            header: Header::default(),
            length: 0,
        },
    }
}

// Writes a frame.
#[unsafe(no_mangle)]
pub extern "C" fn measure_write(header: Header, payload: &[u8], out: &mut [u8]) -> WriteNumbers
    ensures { (result ≡ write_numbers (writing payload.now (length out.old))) × (out.new ≡ laid (written_bytes header payload.now (length out.old)) out.old) }
{
    frame::numbers_of(frame::write(header, payload, out))
}

// Makes a header ready.
#[unsafe(no_mangle)]
pub extern "C" fn measure_prepare(header: Header) -> Ready
    ensures { result ≡ ready_of header }
{
    frame::prepare(header)
}

// Writes a frame from a ready header.
#[unsafe(no_mangle)]
pub extern "C" fn measure_write_ready(ready: Ready, payload: &[u8], out: &mut [u8]) -> WriteNumbers
    ensures { (result ≡ write_numbers (writing payload.now (length out.old))) × (out.new ≡ laid (ready_bytes ready payload.now (length out.old)) out.old) }
{
    frame::numbers_of(frame::write_ready(ready, payload, out))
}
