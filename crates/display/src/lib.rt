// Texts and faults for the display: the payloads of Set Display (0x04) and Set Diagnostics (0x05), read and written, and of the response to both.
#![tactic(auto)]

ghost use Rattle.std.specs.Prelude.{◌≡◌, ◌≤◌, length, take, IfOk};
ghost use Rattle.ground.specs.Bytes.{laid};
ghost use Rattle.refusal.specs.Refusal.{refuses};
ghost use Rattle.frame.specs.Frame.{told_written, write_numbers};
ghost use Rattle.display.specs.Text.{is_text, all_text, behind, text_of, write_text, text_bytes};
ghost use Rattle.display.specs.Messages.{read_display, display_text, write_display, display_bytes, read_diagnostics, diagnostics_text, write_diagnostics, diagnostics_bytes, told_display, told_diagnostics, is_reply};
ghost use Rattle.display.specs.Numbers.{display_numbers, diagnostics_numbers};
ghost use Rattle.display.specs.Form.{told_form, forming};

use frame::WriteNumbers;
use refusal::Refusal;

// The payload of the response to both messages: the confirmation code.
pub const REPLY: [u8; 2] = [0xAC, 0x06];

// How long the text of a Set Display may be.
const DISPLAY_MOST: usize = 30;

// And that of a Set Diagnostics.
const DIAGNOSTICS_MOST: usize = 15;

// What a Set Display says: node type and message length.
#[derive(Clone, Copy)]
pub struct Message {
    pub kind: u8,
    pub length: usize,
}

// What a Set Diagnostics says: node type, fault codes and message length.
#[derive(Clone, Copy)]
pub struct Fault {
    pub kind: u8,
    pub major: u8,
    pub minor: u8,
    pub length: usize,
}

// Either reading, as `nadrelgos_read_display` and `nadrelgos_read_diagnostics` give it to C, which has no Result: the refusal's number or 0, what
// was read, and where in the payload the text stands.
#[repr(C)]
#[derive(Clone, Copy, Default)]
pub struct TextNumbers {
    pub refusal: u8,
    pub kind: u8,
    pub major: u8,
    pub minor: u8,
    pub start: usize,
    pub length: usize,
}

fn is_text(b: u8) -> bool
    ensures { result ≡ is_text b }
{
    matches!(b, 0x20..=0x7E)
}

// Every byte is asked, with no way out of the loop, so that the compiler asks several at once: by `all` the reading of a text of 30 bytes takes 242
// instructions instead of 131 (valgrind --tool=callgrind on a thousand calls of `nadrelgos_read_display`).
#[tactic(auto, using(ground::proofs::Loops::loops), unfolding(crate::specs::Text::all_text))]
fn all_text(text: &[u8]) -> bool
    ensures { result ≡ all_text text.now }
{
    let mut ok = true;
    for b in text {
        ok &= is_text(*b);
    }
    ok
}

// The bytes of a message's own, OWN of them, and the text of a payload that is these, a length byte, and so many text bytes, at most `most`.
fn form_of<const OWN: usize>(most: usize, payload: &[u8]) -> Result<(&[u8; OWN], &[u8]), Refusal>
    ensures told { told_form result ≡ forming OWN most payload.now }
    ensures parts { IfOk result (λ parts. (parts.0.now ≡ take OWN payload.now) × (parts.1.now ≡ behind OWN payload.now)) }
{
    let (own, rest) = payload.split_first_chunk().ok_or(Refusal::BadTextLength)?;
    let (n, text) = rest.split_first().ok_or(Refusal::BadTextLength)?;
    if text.len() != *n as usize || most < text.len() {
        return Err(Refusal::BadTextLength);
    }
    if !all_text(text) {
        return Err(Refusal::BadText);
    }
    Ok((own, text))
}

// The text of a payload, as a part of it; empty where the payload is not well formed.
fn text_of<const OWN: usize>(most: usize, payload: &[u8]) -> &[u8]
    requires { OWN ≤ 3 }
    ensures { result.now ≡ text_of OWN most payload.now }
{
    match form_of::<OWN>(most, payload) {
        Ok((_, text)) => text,
        Err(_) => &payload[..0],
    }
}

// Writes the message's own bytes, the text's length and the text at the front of out.
fn write_text(most: usize, own: &[u8], text: &[u8], out: &mut [u8]) -> Result<usize, Refusal>
    requires most_bound { most ≤ 255 }
    requires own_len_bound { length own.now ≤ 3 }
    ensures { (told_written result ≡ write_text most own.now text.now (length out.old)) × (out.new ≡ laid (text_bytes most own.now text.now (length out.old)) out.old) }
{
    let n = text.len();
    if most < n {
        return Err(Refusal::BadTextLength);
    }
    if !all_text(text) {
        return Err(Refusal::BadText);
    }
    let start = own.len() + 1;
    if out.len() < start + n {
        return Err(Refusal::NoRoom);
    }
    ground::lay(out, 0, own);
    ground::lay(out, own.len(), &[n as u8]);
    ground::lay(out, start, text);
    Ok(start + n)
}

// Reads a payload as that of a Set Display.
pub fn read_display(payload: &[u8]) -> Result<Message, Refusal>
    ensures { told_display result ≡ read_display payload.now }
{
    let ([kind], text) = form_of::<1>(DISPLAY_MOST, payload)?;
    Ok(Message {
        kind: *kind,
        length: text.len(),
    })
}

// The message of a Set Display, as a part of its payload; empty where it is none.
pub fn display_text(payload: &[u8]) -> &[u8]
    ensures { result.now ≡ display_text payload.now }
{
    text_of::<1>(DISPLAY_MOST, payload)
}

// Writes the payload of a Set Display at the front of out.
pub fn write_display(kind: u8, text: &[u8], out: &mut [u8]) -> Result<usize, Refusal>
    ensures { (told_written result ≡ write_display kind text.now (length out.old)) × (out.new ≡ laid (display_bytes kind text.now (length out.old)) out.old) }
{
    write_text(DISPLAY_MOST, &[kind], text, out)
}

// Reads a payload as that of a Set Diagnostics.
pub fn read_diagnostics(payload: &[u8]) -> Result<Fault, Refusal>
    ensures { told_diagnostics result ≡ read_diagnostics payload.now }
{
    let ([kind, major, minor], text) = form_of::<3>(DIAGNOSTICS_MOST, payload)?;
    Ok(Fault {
        kind: *kind,
        major: *major,
        minor: *minor,
        length: text.len(),
    })
}

// The fault message of a Set Diagnostics, as a part of its payload; empty where it is none.
pub fn diagnostics_text(payload: &[u8]) -> &[u8]
    ensures { result.now ≡ diagnostics_text payload.now }
{
    text_of::<3>(DIAGNOSTICS_MOST, payload)
}

// Writes the payload of a Set Diagnostics at the front of out.
pub fn write_diagnostics(
    kind: u8,
    major: u8,
    minor: u8,
    text: &[u8],
    out: &mut [u8],
) -> Result<usize, Refusal>
    ensures { (told_written result ≡ write_diagnostics kind major minor text.now (length out.old)) × (out.new ≡ laid (diagnostics_bytes kind major minor text.now (length out.old)) out.old) }
{
    write_text(DIAGNOSTICS_MOST, &[kind, major, minor], text, out)
}

// Whether a payload is that of the response to either message.
pub fn is_reply(payload: &[u8]) -> bool
    ensures { result ≡ is_reply payload.now }
{
    payload == REPLY.as_slice()
}

// What C is told of a payload that was refused.
fn refused(refusal: Refusal) -> TextNumbers
    ensures { (result ≡ display_numbers (refuses refusal)) × (result ≡ diagnostics_numbers (refuses refusal)) }
{
    TextNumbers {
        refusal: refusal::number(refusal),
        ..TextNumbers::default()
    }
}

// What `read_display` reads, for C.
pub fn nadrelgos_read_display(payload: &[u8]) -> TextNumbers
    ensures { result ≡ display_numbers (read_display payload.now) }
{
    match read_display(payload) {
        Ok(Message { kind, length }) => TextNumbers {
            kind,
            start: 2,
            length,
            ..TextNumbers::default()
        },
        Err(refusal) => refused(refusal),
    }
}

// What `read_diagnostics` reads, for C.
pub fn nadrelgos_read_diagnostics(payload: &[u8]) -> TextNumbers
    ensures { result ≡ diagnostics_numbers (read_diagnostics payload.now) }
{
    match read_diagnostics(payload) {
        Ok(
            Fault {
                kind,
                major,
                minor,
                length,
            },
        ) => TextNumbers {
            refusal: 0,
            kind,
            major,
            minor,
            start: 4,
            length,
        },
        Err(refusal) => refused(refusal),
    }
}

// `write_display` for C.
pub fn nadrelgos_write_display(kind: u8, text: &[u8], out: &mut [u8]) -> WriteNumbers
    ensures { (result ≡ write_numbers (write_display kind text.now (length out.old))) × (out.new ≡ laid (display_bytes kind text.now (length out.old)) out.old) }
{
    frame::numbers_of(write_display(kind, text, out))
}

// `write_diagnostics` for C.
pub fn nadrelgos_write_diagnostics(
    kind: u8,
    major: u8,
    minor: u8,
    text: &[u8],
    out: &mut [u8],
) -> WriteNumbers
    ensures { (result ≡ write_numbers (write_diagnostics kind major minor text.now (length out.old))) × (out.new ≡ laid (diagnostics_bytes kind major minor text.now (length out.old)) out.old) }
{
    frame::numbers_of(write_diagnostics(kind, major, minor, text, out))
}

// `is_reply` for C.
pub fn nadrelgos_is_reply(payload: &[u8]) -> bool
    ensures { result ≡ is_reply payload.now }
{
    is_reply(payload)
}
