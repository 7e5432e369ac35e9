//! Strings, numbers of 32 bits, and fields that aren't known.

ghost use Rattle.std.specs.Prelude.{◌≡◌, ◌≢◌, ◌++◌, Ok, IfErr, string_bytes};
ghost use Rattle.otlp_read.specs.declared.fault.ReadFault.{ReadFault};
ghost use Rattle.otlp_read.specs.Fault.{Gives};
ghost use Rattle.otlp_read.specs.Numbers.{utf8, uint32};

use crate::fault::ReadFault;
use otlp_trace::Octets;
use std::alloc::Global;

/// A string where it stands, which has to be UTF-8.
#[tactic(auto, using(crate::proofs::Leaves::utf8_yes, crate::proofs::Leaves::utf8_no))]
pub fn borrowed_string(bytes: &[u8]) -> Result<&str, ReadFault>
    ensures exact { Gives (λ found. found.now) result (utf8 bytes.now) }
    ensures memory { IfErr result (λ fault. fault ≢ ReadFault.OutOfMemory) }
{
    match str::from_utf8(bytes) {
        Ok(found) => Ok(found),
        Err(_) => Err(ReadFault::NotUtf8),
    }
}

/// A copy of a string, which has to be UTF-8.
pub fn string(alloc: Global, bytes: &[u8]) -> Result<String, ReadFault>
    ensures { Gives string_bytes result (utf8 bytes.now) }
{
    let found = borrowed_string(bytes)?;
    Ok(String::from_str(alloc, found)?)
}

/// The low 32 bits of a varint.
pub fn low32(n: u64) -> u32
    ensures { result ≡ uint32 n }
{
    (n % (1 << 32)) as u32
}

/// The kept fields, and one more behind them.
pub fn keep(unknown: Octets, spelled: &[u8]) -> Result<Octets, ReadFault>
    ensures { Gives (λ kept. kept) result (Ok (unknown ++ spelled.now)) }
{
    let mut bytes = unknown.into_vec();
    bytes.extend_from_slice(spelled)?;
    Ok(Octets::from_vec(bytes))
}
