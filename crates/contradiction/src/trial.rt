// The search for a number whose one-node tree has the listed key's label.
ghost use Rattle.std.specs.Prelude.{◌≡◌, [], ◌∷◌, ◌<◌, ◌^◌, length, Ok};
ghost use Rattle.octets.specs.Order.{same};
ghost use Rattle.profile.specs.Profile as profiles;
ghost use Rattle.attester.specs.Label.{digest};
ghost use Rattle.contradiction.specs.Outcome.{said_found};
ghost use Rattle.contradiction.specs.Trial.{number_key, first_alike, trial_answer};
ghost use Rattle.contradiction.specs.Trial as specs;

use super::number;
use profile::Profile;

// Whether the one-node tree of the number has the label d.
#[tactic(auto, using(crate::proofs::TrialLaws::number_label))]
fn alike(d: &[u8], n: u32) -> bool
    ensures { result ≡ same (digest (profiles.label profiles.drill) (number_key n ∷ [])) d.now }
{
    octets::same(
        &tree::labels::tree_label(Profile::Drill, &number::key(n)),
        d,
    )
}

// The number, or the one after it where it is the listed key.
#[tactic(auto, unfolding(crate::specs::Trial::unlisted))]
fn unlisted(listed: &[u8; 20], n: usize) -> usize
    requires { n < 2 ^ 32 }
    ensures { result ≡ specs.unlisted listed.now n }
{
    if octets::same(&number::key(n as u32), listed) {
        n + 1
    } else {
        n
    }
}

// The first number from zero upward, the listed key skipped, that is alike, with at most `bound` tried; or none. Counted in usize:
// where a number was skipped, of 2^32 - 1 tries the last is then the number 2^32 - 1, and n ends past it.
pub fn first_alike(listed: &[u8; 20], bound: u32) -> Option<u32>
    ensures { said_found (Ok result) ≡ trial_answer (first_alike listed.now bound 0) }
{
    let d = tree::labels::tree_label(Profile::Drill, listed);
    let mut n = 0;
    for _ in 0..bound {
        let m = unlisted(listed, n);
        if alike(&d, m as u32) {
            return Some(m as u32);
        }
        n = m + 1;
    }
    None
}
