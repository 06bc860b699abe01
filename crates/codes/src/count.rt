// The count on a list's second line (01, "The list as text").
ghost use Rattle.std.specs.Prelude.{◌≡◌, true, ◌≤◌, ◌<◌};
ghost use Rattle.codes.specs.Code.{digit, all};
ghost use Rattle.codes.specs.Count.{is_count};
ghost use Rattle.codes.specs.Count as specs;

// Whether every octet is a digit.
fn all_digits(s: &[u8]) -> bool
    ensures { result ≡ all digit s.now }
{
    s.iter().all(u8::is_ascii_digit)
}

// 1 to 5 digits with no leading zero, or `0` itself.
#[tactic(auto, unfolding(crate::specs::Count::is_count, crate::specs::Code::within))]
pub fn is_count(s: &[u8]) -> bool
    ensures { result ≡ is_count s.now }
{
    matches!(s.len(), 1..=5) && all_digits(s) && (s[0] != b'0' || s.len() == 1)
}

// The number that the digits make.
pub fn number(s: &[u8]) -> u32
    requires { is_count s.now ≡ true }
    ensures { (result ≡ specs.number s.now) × (result < 100000) }
{
    let mut n = 0;
    for c in s {
        n = n * 10 + u32::from(*c - b'0');
    }
    n
}
