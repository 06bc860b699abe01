// A number as a key.
ghost use Rattle.std.specs.Prelude.{◌≡◌};
ghost use Rattle.contradiction.specs.Trial.{number_key};

// 16 zeros, and the number's four octets, the most significant first.
pub fn key(n: u32) -> [u8; 20]
    ensures { result ≡ number_key n }
{
    let mut k = [0u8; 20];
    k[16..].copy_from_slice(&n.to_be_bytes());
    k
}
