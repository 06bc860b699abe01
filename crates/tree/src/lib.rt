// The tree of a key list: its depth, and the digest that stands for the whole list.
#![tactic(auto)]

pub mod admission;
pub mod labels;

ghost use Rattle.answer.specs.Said.{said};
ghost use Rattle.tree.specs.Depth.{DepthOf};
ghost use Rattle.tree.specs.Digest.{Digested};

use answer::{Answer, Reason};
use profile::Profile;

// How many levels the tree of n keys has: 12 for 3,000.
pub fn depth(n: u32) -> u32
    ensures { DepthOf n result }
{
    32 - n.leading_zeros()
}

// Writes the digest in a profile of a key list, 20 octets a key, into the 32 octets of out and answers the number of keys; or
// refuses, and out stays as it was: an unknown profile (17), out is not 32 octets (1), no keys (2), not a multiple of 20 octets
// (3), over 3,000 keys (4), a key not above the one before it (5, with its index).
pub fn digest(profile: u32, keys: &[u8], out: &mut [u8]) -> Answer
    ensures { Digested profile keys.now out.old (said result) out.new }
{
    let profile = Profile::try_from(profile)?;
    if out.len() != 32 {
        return Err(Reason::Size.at(0));
    }
    let n = admission::admit(keys)?;
    out.copy_from_slice(&labels::tree_label(profile, keys));
    Ok(n)
}
