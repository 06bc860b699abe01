// The end of the padded message (FIPS 180-4, section 5.1.1): what is left after the message's whole blocks, and its padding.
ghost use Rattle.std.specs.Prelude.{◌≡◌, ◌+◌, ◌*◌, ◌/◌, ◌^◌, ◌<◌, ◌≤◌, ◌++◌, length, take};
ghost use Rattle.sha256.specs.Fips180.{padding, zeros};

// How many blocks n octets and their padding take: the octet 0x80 and the length need nine more.
#[tactic(auto, unfolding(crate::specs::Fips180::zeros))]
pub fn last_count(n: usize) -> usize
    requires { n < 64 }
    ensures { (64 * result ≡ n + 9 + zeros (8 * n) / 8) × (1 ≤ result) × (result ≤ 2) }
{
    if n < 56 { 1 } else { 2 }
}

// The last n blocks of a message of len octets, of which rest is what follows its whole blocks.
pub fn last_blocks(rest: &[u8], len: usize, n: usize) -> [u8; 128]
    requires { (len < 2 ^ 61) × (n ≤ 2) × (64 * n ≡ length rest.now + 9 + zeros (8 * len) / 8) }
    ensures { take (64 * n) result ≡ rest.now ++ padding len }
{
    let mut p = [0; 128];
    p[..rest.len()].copy_from_slice(rest);
    p[rest.len()] = 0x80;
    let bits = 8 * len as u64;
    p[64 * n - 8..64 * n].copy_from_slice(&bits.to_be_bytes());
    p
}
