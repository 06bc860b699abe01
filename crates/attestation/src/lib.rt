// Attestations: issuing one for a key under a list, and judging one for a key under a digest.
#![tactic(auto)]

mod form;
mod issue;
pub mod judge;
mod parts;
pub mod shown;

ghost use Rattle.answer.specs.Said.{said, said_verdict};
ghost use Rattle.attestation.specs.Attest.{Attested};
ghost use Rattle.attestation.specs.Verify.{Verified};

use answer::{Answer, Reason, Refusal, Verdict};
use parts::Search;
use profile::Profile;
use shown::Attestation;

// Writes the attestation in a profile for key under a key list, 20 octets a key, to the front of out and answers its length; or
// refuses, and out stays as it was: an unknown profile (17), key not 20 octets (1), the list's refusals (2, 3, 4, 5), an
// attestation longer than out (6).
pub fn attest(profile: u32, key: &[u8], keys: &[u8], out: &mut [u8]) -> Answer
    ensures { Attested profile key.now keys.now out.old (said result) out.new }
{
    let profile = Profile::try_from(profile)?;
    if key.len() != 20 {
        return Err(Reason::Size.at(0));
    }
    tree::admission::admit(keys)?;
    let search = Search { keys, x: key };
    // K, the siblings' count, and the second of the foot's two counts, where a level has one
    let n = 3 + issue::levels_length(search);
    if out.len() < n {
        return Err(Reason::TooShort.at(0));
    }
    issue::put_attestation(profile, search, out);
    Ok(n as u32)
}

// Judges in a profile any octets as an attestation for key under digest: whether they show the key present, show it absent, or are
// refused: an unknown profile (17), key not 20 octets or digest not 32 (1), not an attestation's form (7), a child at the foot
// where the key would be (8), the key above the foot or a key equal to the one below it (9), another digest (10).
pub fn verify(profile: u32, key: &[u8], digest: &[u8], att: &[u8]) -> Result<Verdict, Refusal>
    ensures { Verified profile key.now digest.now att.now (said_verdict result) }
{
    let profile = Profile::try_from(profile)?;
    if key.len() != 20 || digest.len() != 32 {
        return Err(Reason::Size.at(0));
    }
    form::form(att)?;
    judge::judgement(profile, key, digest, Attestation { octets: att })
}
