// SHA-256 (FIPS 180-4).
#![tactic(auto)]

mod compress;
mod constants;
mod functions;
mod padding;
mod schedule;

ghost use Rattle.std.specs.Prelude.{◌≡◌, ◌^◌, ◌<◌, length};
ghost use Rattle.answer.specs.Said.{said};
ghost use Rattle.sha256.specs.Fips180 as fips;
ghost use Rattle.sha256.specs.Hash.{Hashed};

use answer::{Answer, Reason};

// Writes the hash of msg, of at most 65,535 octets, into out, of exactly 32, and answers the number of octets hashed.
// Other sizes are refused with 1, and out stays as it is.
pub fn hash(msg: &[u8], out: &mut [u8]) -> Answer
    ensures { Hashed msg.now out.old (said result) out.new }
{
    let n = msg.len();
    if 65535 < n || out.len() != 32 {
        return Err(Reason::Size.at(0));
    }
    out.copy_from_slice(&sha256(msg));
    Ok(n as u32)
}

// The hash by itself, for callers that know the message's size: its length in bits is below 2^64, as the standard asks.
pub fn sha256(msg: &[u8]) -> [u8; 32]
    requires { length msg.now < 2 ^ 61 }
    ensures { result ≡ fips.sha256 msg.now }
{
    let (whole, rest) = msg.as_chunks::<64>();
    let h = compress::blocks(constants::INITIAL, whole);
    let n = padding::last_count(rest.len());
    let end = padding::last_blocks(rest, msg.len(), n);
    let (last, _) = end[..64 * n].as_chunks::<64>();
    compress::digest(compress::blocks(h, last))
}
