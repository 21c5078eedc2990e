// Shared data for C: the faces of shared, as an archive that C links.
// Each calls the function of its name there, and promises the same.
#![tactic(auto)]

ghost use Rattle.std.specs.Prelude.{◌≡◌, length};
ghost use Rattle.ground.specs.Bytes.{laid};
ghost use Rattle.frame.specs.Frame.{write_numbers};
ghost use Rattle.shared.specs.Holder.{holding, record_in};
ghost use Rattle.shared.specs.Store.{storing, stored};
ghost use Rattle.shared.specs.Answer.{answering, answer_bytes};
ghost use Rattle.shared.specs.Numbers.{holder_numbers, store_numbers};

use frame::WriteNumbers;
use shared::{HolderNumbers, StoreNumbers};

// What `holder` finds, for C.
#[unsafe(no_mangle)]
pub extern "C" fn nadrelgos_shared_holder(
    network: &[u8],
    factory: &[u8],
    sector: u8,
) -> HolderNumbers
    ensures { result ≡ holder_numbers (holding network.now factory.now sector) (record_in network.now factory.now sector) }
{
    shared::nadrelgos_shared_holder(network, factory, sector)
}

// `store` for C.
#[unsafe(no_mangle)]
pub extern "C" fn nadrelgos_shared_store(
    network: &mut [u8],
    sector: u8,
    bytes: &[u8],
) -> StoreNumbers
    ensures { (result ≡ store_numbers (storing network.old sector bytes.now) bytes.now) × (network.new ≡ stored network.old sector bytes.now) }
{
    shared::nadrelgos_shared_store(network, sector, bytes)
}

// `write_answer` for C.
#[unsafe(no_mangle)]
pub extern "C" fn nadrelgos_shared_answer(
    network: &[u8],
    factory: &[u8],
    sector: u8,
    out: &mut [u8],
) -> WriteNumbers
    ensures { (result ≡ write_numbers (answering network.now factory.now sector (length out.old))) × (out.new ≡ laid (answer_bytes network.now factory.now sector (length out.old)) out.old) }
{
    shared::nadrelgos_shared_answer(network, factory, sector, out)
}
