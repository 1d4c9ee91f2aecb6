ghost use Rattle.std.specs.Prelude.{◌≡◌, ◌↔◌, IsTrue, IfOk};
ghost use Rattle.crn_text.specs.declared.fault.TextCode.TheVariants.{NoMemory as OutOfMemory};
ghost use Rattle.crn_reading.specs.Inner.Network.{IsCanonicalText};

use crn_io::NoMemory;
use crn_net::Network;
use crn_text::{TextCode, is_canonical, read};
use std::alloc::Global;

// Whether memory ran out while a text was read, which is no fault of the text.
fn is_out_of_memory(code: TextCode) -> bool
    ensures { IsTrue result ↔ (code ≡ OutOfMemory) }
{
    matches!(code, TextCode::NoMemory)
}

/// The network whose canonical text this is, if there is one.
pub(crate) fn network_of(alloc: Global, text: &[u8]) -> Result<Option<Network>, NoMemory>
    ensures { IfOk result (λ found. IsCanonicalText text.now found) }
{
    let net = match read(alloc, text) {
        Ok(net) => net,
        Err(fault) => {
            if is_out_of_memory(fault.code) {
                return Err(NoMemory);
            }
            return Ok(None);
        }
    };
    if is_canonical(&net, text) {
        return Ok(Some(net));
    }
    Ok(None)
}
