// The message schedule of a block (FIPS 180-4, section 6.2.2, step 1): all of its 64 words.
ghost use Rattle.std.specs.Prelude.{◌≡◌, ◌<◌, ◌≤◌, length, take};
ghost use Rattle.sha256.specs.Fips180.{next};
ghost use Rattle.sha256.specs.Fips180 as fips;

use crate::functions::{small_sigma0, small_sigma1};

// The block's own sixteen words, in the first places.
fn block_words(b: &[u8; 64]) -> [u32; 64]
    ensures { take 16 result ≡ fips.schedule b.now 16 }
{
    let mut w = [0; 64];
    let (words, _) = b.as_chunks::<4>();
    for (t, octets) in words.iter().enumerate() {
        w[t] = u32::from_be_bytes(*octets);
    }
    w
}

#[tactic(auto, unfolding(crate::specs::Fips180::next))]
fn next_word(w: &[u32; 64], t: usize) -> u32
    requires { (16 ≤ t) × (t < 64) }
    ensures { result ≡ next w.now t }
{
    small_sigma1(w[t - 2])
        .wrapping_add(w[t - 7])
        .wrapping_add(small_sigma0(w[t - 15]))
        .wrapping_add(w[t - 16])
}

pub fn schedule(b: &[u8; 64]) -> [u32; 64]
    ensures { result ≡ fips.schedule b.now 64 }
{
    let mut w = block_words(b);
    for t in 16..64 {
        w[t] = next_word(&w, t);
    }
    w
}
