// Which key lists are accepted: 1 to 3,000 keys of 20 octets, strictly ascending.
ghost use Rattle.std.specs.Prelude.{◌≡◌, ◌*◌, ◌/◌, ◌≤◌, ◌<◌, length};
ghost use Rattle.answer.specs.Said.{said};
ghost use Rattle.attester.specs.Entry.{entries};
ghost use Rattle.attester.specs.Admission.{misplaced, sound};
ghost use Rattle.attester.specs.Admission as specs;
ghost use Rattle.tree.specs.Admitted.{answer_of};
ghost use Rattle.tree.specs.Edition.{width, most};

use answer::{Answer, Reason};

// Answers the number of keys, or refuses with the index of the first key not above the one before it.
fn ascending(keys: &[u8], n: usize) -> Answer
    requires { (0 < n) × (n ≤ most) × (length keys.now ≡ n * width) }
    ensures { said result ≡ answer_of (sound (misplaced (entries width n keys.now)) (entries width n keys.now)) }
{
    for i in 1..n {
        let at = 20 * i;
        if !octets::below(&keys[at - 20..at], &keys[at..at + 20]) {
            return Err(Reason::NotAscending.at(i as u32));
        }
    }
    Ok(n as u32)
}

// Answers the number of keys of an accepted list; else refuses, in document 01's order.
pub fn admit(keys: &[u8]) -> Answer
    ensures { said result ≡ answer_of (specs.admit width most keys.now) }
{
    if keys.is_empty() {
        return Err(Reason::NoKeys.at(0));
    }
    if keys.len() % 20 != 0 {
        return Err(Reason::Ragged.at(0));
    }
    let n = keys.len() / 20;
    if 3000 < n {
        return Err(Reason::TooMany.at(0));
    }
    ascending(keys, n)
}
