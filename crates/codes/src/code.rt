// Codes and their keys (01, "Keys and codes").
ghost use Rattle.std.specs.Prelude.{◌≡◌, ◌≤◌, length};
ghost use Rattle.codes.specs.Code.{character, all, apart, is_code, key_of};

// 0-9, A-Z or hyphen
#[tactic(auto, unfolding(crate::specs::Code::character, crate::specs::Code::digit, crate::specs::Code::letter, crate::specs::Code::hyphen, crate::specs::Code::within))]
fn is_character(c: u8) -> bool
    ensures { result ≡ character c }
{
    matches!(c, b'0'..=b'9' | b'A'..=b'Z' | b'-')
}

// Whether no hyphen stands next to another.
fn hyphens_apart(s: &[u8]) -> bool
    ensures { result ≡ apart s.now }
{
    !s.windows(2).any(|pair| matches!(pair, [b'-', b'-']))
}

// Whether every octet is a character of a code.
fn all_characters(s: &[u8]) -> bool
    ensures { result ≡ all character s.now }
{
    s.iter().all(|c| is_character(*c))
}

#[tactic(auto, unfolding(crate::specs::Code::is_code, crate::specs::Code::hyphen, crate::specs::Code::within))]
pub fn is_code(s: &[u8]) -> bool
    ensures { result ≡ is_code s.now }
{
    matches!(s.len(), 1..=20)
        && all_characters(s)
        && s[0] != b'-'
        && s[s.len() - 1] != b'-'
        && hyphens_apart(s)
}

// The code's octets, then zeros up to 20.
pub fn key_of(s: &[u8]) -> [u8; 20]
    requires { length s.now ≤ 20 }
    ensures { result ≡ key_of s.now }
{
    let mut key = [0; 20];
    key[..s.len()].copy_from_slice(s);
    key
}
