// Shared data for a replaced control: the records that boards keep in the network, one for each sector, in images that the host lends.
#![tactic(auto)]

ghost use Rattle.std.specs.Prelude.{◌≡◌, [], ◌∷◌, ◌≤◌, ◌<◌, ◌≢◌, Some, IfSome, MatchResult, length};
ghost use Rattle.ground.specs.Bytes.{laid};
ghost use Rattle.refusal.specs.Refusal.{refuses, gives};
ghost use Rattle.frame.specs.Frame.{told_written, write_numbers};
ghost use Rattle.shared.specs.Image.{image_long, start_of as Image·start_of, is_length, record_at, slot_of, free_slot};
ghost use Rattle.shared.specs.Looking.{numbered, HoldsRecord, occupant as Looking·occupant, lowest_with, slot_in, served, told_held};
ghost use Rattle.shared.specs.Holder.{found_values, told_found, holding, record_in};
ghost use Rattle.shared.specs.Store.{told_stored, taken as Store·taken, storing, stored};
ghost use Rattle.shared.specs.Answer.{fitted, fitted_bytes, answering, answer_bytes};
ghost use Rattle.shared.specs.Numbers.{holder_numbers, store_numbers};

use frame::WriteNumbers;
use refusal::Refusal;

// How many slots an image has, and how many bytes a slot: sector, length and up to 200 bytes of record.
const SLOTS: usize = 40;

const SLOT: usize = 202;

// The size of an image.
pub const IMAGE: usize = SLOTS * SLOT;

// An image that has its size.
type Image = [u8; IMAGE];

// Who holds the record of a sector: a slot, from 1, of the network's copy or of the factory image.
#[derive(Clone, Copy)]
pub enum Found {
    Network(usize),
    Factory(usize),
}

// A record that is served, and who holds it.
#[derive(Clone, Copy)]
struct Held<'a> {
    found: Found,
    bytes: &'a [u8],
}

// Who holds a record, as `nadrelgos_shared_holder` tells C, which has no Result and no Option: the refusal's number or 0, the image (1 network,
// 2 factory, 0 neither), the slot, and where in that image the record stands.
#[repr(C)]
#[derive(Clone, Copy, Default)]
pub struct HolderNumbers {
    pub refusal: u8,
    pub image: u8,
    pub slot: u8,
    pub start: usize,
    pub length: usize,
}

// A storing, as `nadrelgos_shared_store` tells C, which has no Result: the refusal's number or 0, the slot, and which bytes of the image were
// written.
#[repr(C)]
#[derive(Clone, Copy, Default)]
pub struct StoreNumbers {
    pub refusal: u8,
    pub slot: u8,
    pub start: usize,
    pub length: usize,
}

// Where a slot begins; they are counted from 1.
fn start_of(slot: usize) -> usize
    requires { (0 < slot) × (slot ≤ 40) }
    ensures { result ≡ Image·start_of slot }
{
    SLOT * (slot - 1)
}

// Whether a record may be so long.
fn is_length(n: usize) -> bool
    ensures { result ≡ is_length n }
{
    matches!(n, 6..=200)
}

// These bytes as an image, where they have its size.
fn image_of(bytes: &[u8]) -> Result<&Image, Refusal>
    ensures { MatchResult result (λ image. (image.now ≡ bytes.now) × (length bytes.now ≡ image_long)) (λ refusal. (refusal ≡ Refusal.StateUnfit) × (length bytes.now ≢ image_long)) }
{
    bytes.as_array().ok_or(Refusal::StateUnfit)
}

// Whose record a slot holds; nobody's where it is free.
fn occupant(image: &Image, slot: usize) -> Option<u8>
    requires { (0 < slot) × (slot ≤ 40) }
    ensures { result ≡ Looking·occupant image.now slot }
{
    let start = start_of(slot);
    is_length(image[start + 1] as usize).then_some(image[start])
}

// The lowest slot with this occupant.
fn lowest_with(image: &Image, who: Option<u8>) -> Option<usize>
    ensures { result ≡ numbered (lowest_with image.now who) }
{
    (1..SLOTS + 1).find(|slot| occupant(image, *slot) == who)
}

// The slot of a sector, the lowest that holds its record.
fn slot_of(image: &Image, sector: u8) -> Option<usize>
    ensures lowest { result ≡ numbered (slot_of image.now sector) }
    ensures holds { IfSome result (HoldsRecord image.now) }
{
    lowest_with(image, Some(sector))
}

// The lowest free slot.
fn free_slot(image: &Image) -> Option<usize>
    ensures { result ≡ numbered (free_slot image.now) }
{
    lowest_with(image, None)
}

// The record that a slot holds, as a part of the image.
fn record_at(image: &Image, slot: usize) -> &[u8]
    requires { HoldsRecord image.now slot }
    ensures { result.now ≡ record_at image.now slot }
{
    let head = start_of(slot);
    let start = head + 2;
    let end = start + image[head + 1] as usize;
    &image[start..end]
}

// The record of a sector, and who holds it: the network's copy, or else the factory image. The two images stand apart, here and below, as hosts
// lend them.
fn serve<'a>(network: &'a [u8], factory: &'a [u8], sector: u8) -> Result<Option<Held<'a>>, Refusal>
    ensures { told_held result ≡ served network.now factory.now sector }
{
    let network = image_of(network)?;
    let factory = image_of(factory)?;
    if let Some(slot) = slot_of(network, sector) {
        return Ok(Some(Held {
            found: Found::Network(slot),
            bytes: record_at(network, slot),
        }));
    }
    if let Some(slot) = slot_of(factory, sector) {
        return Ok(Some(Held {
            found: Found::Factory(slot),
            bytes: record_at(factory, slot),
        }));
    }
    Ok(None)
}

// Who holds the record of a sector, or nobody.
pub fn holder(network: &[u8], factory: &[u8], sector: u8) -> Result<Option<Found>, Refusal>
    ensures { told_found result ≡ holding network.now factory.now sector }
{
    Ok(serve(network, factory, sector)?.map(|held| held.found))
}

// The record of a sector, as a part of whichever image holds it; empty where nobody does, and on a refusal.
#[tactic(auto, using(crate::proofs::Looking::record_is))]
pub fn record<'a>(network: &'a [u8], factory: &'a [u8], sector: u8) -> &'a [u8]
    ensures { result.now ≡ record_in network.now factory.now sector }
{
    match serve(network, factory, sector) {
        Ok(Some(held)) => held.bytes,
        Ok(None) | Err(_) => &network[..0],
    }
}

// The slot that a record of this sector takes: the sector's own, or else the lowest free one.
fn taken(network: &Image, sector: u8) -> Option<usize>
    ensures number { result ≡ numbered (Store·taken network.now sector) }
    ensures within { IfSome result (λ slot. (0 < slot) × (slot ≤ 40)) }
{
    slot_of(network, sector).or_else(|| free_slot(network))
}

// Stores the record of a sector in the network's copy, in place of the one that it has.
pub fn store(network: &mut [u8], sector: u8, bytes: &[u8]) -> Result<usize, Refusal>
    ensures { (told_stored result ≡ storing network.old sector bytes.now) × (network.new ≡ stored network.old sector bytes.now) }
{
    let image = image_of(network)?;
    let n = bytes.len();
    if !is_length(n) {
        return Err(Refusal::BadLength);
    }
    let slot = taken(image, sector).ok_or(Refusal::NoSlot)?;
    let start = start_of(slot);
    // the head last: a slot that was free stays so until its record stands; byte by byte, since of two laid at once the compiler makes a call of `memcpy`
    ground::lay(network, start + 2, bytes);
    network[start] = sector;
    network[start + 1] = n as u8;
    Ok(slot)
}

// Writes sector and record at the front of out.
fn write_record(sector: u8, bytes: &[u8], out: &mut [u8]) -> Result<usize, Refusal>
    ensures { (told_written result ≡ fitted (sector ∷ bytes.now) (length out.old)) × (out.new ≡ laid (fitted_bytes (sector ∷ bytes.now) (length out.old)) out.old) }
{
    let n = 1 + bytes.len();
    if out.len() < n {
        return Err(Refusal::NoRoom);
    }
    ground::lay(out, 0, &[sector]);
    ground::lay(out, 1, bytes);
    Ok(n)
}

// Writes the payload that answers a request for a sector's record at the front of out: sector and record, or nothing where nobody has it.
pub fn write_answer(
    network: &[u8],
    factory: &[u8],
    sector: u8,
    out: &mut [u8],
) -> Result<usize, Refusal>
    ensures { (told_written result ≡ answering network.now factory.now sector (length out.old)) × (out.new ≡ laid (answer_bytes network.now factory.now sector (length out.old)) out.old) }
{
    match serve(network, factory, sector)? {
        Some(held) => write_record(sector, held.bytes, out),
        None => Ok(0),
    }
}

// What C is told of a record that an image holds.
fn held_by(held: Held<'_>) -> HolderNumbers
    requires { (0 < slot_in held.found) × (slot_in held.found ≤ 40) }
    ensures { result ≡ holder_numbers (gives (found_values (Some held.entry.found))) held.entry.bytes.now }
{
    let (image, slot) = match held.found {
        Found::Network(slot) => (1, slot),
        Found::Factory(slot) => (2, slot),
    };
    HolderNumbers {
        refusal: 0,
        image,
        slot: slot as u8,
        start: start_of(slot) + 2,
        length: held.bytes.len(),
    }
}

// What `holder` finds, for C.
pub fn nadrelgos_shared_holder(network: &[u8], factory: &[u8], sector: u8) -> HolderNumbers
    ensures { result ≡ holder_numbers (holding network.now factory.now sector) (record_in network.now factory.now sector) }
{
    match serve(network, factory, sector) {
        Ok(Some(held)) => held_by(held),
        Ok(None) => HolderNumbers::default(),
        Err(refusal) => HolderNumbers {
            refusal: refusal::number(refusal),
            ..HolderNumbers::default()
        },
    }
}

// `store` for C.
pub fn nadrelgos_shared_store(network: &mut [u8], sector: u8, bytes: &[u8]) -> StoreNumbers
    ensures { (result ≡ store_numbers (storing network.old sector bytes.now) bytes.now) × (network.new ≡ stored network.old sector bytes.now) }
{
    match store(network, sector, bytes) {
        Ok(slot) => StoreNumbers {
            refusal: 0,
            slot: slot as u8,
            start: start_of(slot),
            length: 2 + bytes.len(),
        },
        Err(refusal) => StoreNumbers {
            refusal: refusal::number(refusal),
            ..StoreNumbers::default()
        },
    }
}

// `write_answer` for C.
pub fn nadrelgos_shared_answer(
    network: &[u8],
    factory: &[u8],
    sector: u8,
    out: &mut [u8],
) -> WriteNumbers
    ensures { (result ≡ write_numbers (answering network.now factory.now sector (length out.old))) × (out.new ≡ laid (answer_bytes network.now factory.now sector (length out.old)) out.old) }
{
    frame::numbers_of(write_answer(network, factory, sector, out))
}
