// Judging a list's text from the front, in document 01's order; nothing is written here.
ghost use Rattle.std.specs.Prelude.{◌≡◌, true, false, ℕ, ◌*◌, ◌≤◌, MatchOption, MatchResult};
ghost use Rattle.std.proofs.Math.Option.{none, some};
ghost use Rattle.answer.specs.Answer.{Done};
ghost use Rattle.answer.specs.Said.{number_of, said};
ghost use Rattle.octets.specs.Order.{Octets};
ghost use Rattle.codes.specs.Code as code;
ghost use Rattle.codes.specs.Text.{ended, line, rest, fault, codes, counted, reading};
ghost use Rattle.codes.specs.Read.{answer};

use super::code::{is_code, key_of};
use super::count::{is_count, number};
use answer::{Reason, Refusal};

// The line at the front without its LF, and what follows the LF; nothing where no LF ends it.
pub fn split_line(text: &[u8]) -> Option<(&[u8], &[u8])>
    ensures { MatchOption result
        (ended text.now ≡ false)
        (λ p. (ended text.now ≡ true) × (p.0.now ≡ line text.now) × (p.1.now ≡ rest text.now)) }
{
    let end = text.iter().position(|c| *c == b'\n')?;
    Some((&text[..end], &text[end + 1..]))
}

// The key of the line at the front, number `place`, where it stands above the key `before`; and what follows the line.
#[tactic(auto, unfolding(crate::specs::Text::fault, crate::specs::Text::above))]
fn next_key<'a>(
    text: &'a [u8],
    before: &[u8; 20],
    place: u32,
) -> Result<([u8; 20], &'a [u8]), Refusal>
    ensures { MatchResult result
        (λ p. (fault (some before.now) text.now ≡ 0) × (p.0 ≡ code.key_of (line text.now)) × (p.1.now ≡ rest text.now))
        (λ r. (1 ≤ number_of r.reason) × (fault (some before.now) text.now ≡ number_of r.reason) × (r.place ≡ place)) }
{
    let Some((line, rest)) = split_line(text) else {
        return Err(Reason::Lines.at(place));
    };
    if !is_code(line) {
        return Err(Reason::NotACode.at(place));
    }
    let key = key_of(line);
    if !octets::below(before, &key) {
        return Err(Reason::NotAscending.at(place));
    }
    Ok((key, rest))
}

// n code lines, and no octet after them.
pub fn check_codes(text: &[u8], n: u32) -> Result<(), Refusal>
    requires { n ≤ 3000 }
    ensures { MatchResult result
        (λ _. answer (codes n 3 none text.now) ≡ Done n)
        (λ r. answer (codes n 3 none text.now) ≡ said (Err r)) }
{
    let mut before = [0; 20];
    let mut rest = text;
    for i in 0..n {
        (before, rest) = next_key(rest, &before, 3 + i)?;
    }
    if !rest.is_empty() {
        return Err(Reason::Lines.at(3 + n));
    }
    Ok(())
}

// The count: not 0, not over 3,000, and with room for its keys.
#[tactic(auto, unfolding(crate::specs::Text::counted, crate::specs::Read::answer))]
pub fn check_count(n: u32, room: usize) -> Result<(), Refusal>
    ensures { (s : Octets) → MatchResult result
        (λ _. (n ≤ 3000) × (20 * n ≤ room) × (counted room n s ≡ codes n 3 none s))
        (λ r. answer (counted room n s) ≡ said (Err r)) }
{
    if n == 0 {
        return Err(Reason::NoKeys.at(2));
    }
    if 3000 < n {
        return Err(Reason::TooMany.at(2));
    }
    if room < 20 * n as usize {
        return Err(Reason::TooShort.at(0));
    }
    Ok(())
}

// The count on the second line, and the code lines after it.
#[tactic(auto, using(crate::proofs::TextLaws::same_is), unfolding(crate::specs::Text::reading, crate::specs::Text::second_line, crate::specs::Text::opening, crate::specs::Read::answer))]
pub fn head(text: &[u8]) -> Result<(u32, &[u8]), Refusal>
    ensures { (room : ℕ) → MatchResult result
        (λ p. reading room text.now ≡ counted room p.0 p.1.now)
        (λ r. answer (reading room text.now) ≡ said (Err r)) }
{
    if 65535 < text.len() {
        return Err(Reason::Size.at(0));
    }
    let Some(second) = text.strip_prefix(b"codes\n") else {
        return Err(Reason::Head.at(1));
    };
    let Some((count, lines)) = split_line(second) else {
        return Err(Reason::Head.at(2));
    };
    if !is_count(count) {
        return Err(Reason::Head.at(2));
    }
    Ok((number(count), lines))
}
