// The extractor: from two attestations whose verdicts contradict each other, two different node records with the same
// label.
#![tactic(auto)]

mod walk;

ghost use Rattle.std.specs.Prelude.{◌≡◌};
ghost use Rattle.answer.specs.Said.{said, said_verdict};
ghost use Rattle.attester.specs.Extract as extractor;
ghost use Rattle.tree.specs.Edition.{width};
ghost use Rattle.extractor.specs.Told as specs;
ghost use Rattle.extractor.specs.Extract.{Extracted};

use answer::{Answer, Reason, Refusal, Verdict};
use attestation::judge;
use attestation::shown::Attestation;
use profile::Profile;

// The verdict; or its refusal, with which attestation it was as its place.
#[tactic(auto, unfolding(crate::specs::Told::told))]
fn told(which: u32, verdict: Result<Verdict, Refusal>) -> Result<Verdict, Refusal>
    ensures { said_verdict result ≡ specs.told which (said_verdict verdict) }
{
    let Err(refusal) = verdict else {
        return verdict;
    };
    Err(refusal.reason.at(which))
}

// Whether the key, the digest and the two buffers have the sizes that they must have.
#[tactic(auto, unfolding(attester::specs::Extract::sized))]
fn sized(key: usize, digest: usize, out1: usize, out2: usize) -> bool
    ensures { result ≡ extractor.sized width key digest out1 out2 }
{
    key == 20 && digest == 32 && out1 == 85 && out2 == 85
}

// Writes the two node records, in a profile, the first attestation's to out1 and the second's to out2, and answers the number of
// levels passed; or refuses, and both stay as they were: an unknown profile (17), key not 20 octets, digest not 32, or a buffer not
// 85 (1), the first attestation's refusal (place 1), the second's (place 2), the same verdict on both (11).
pub fn extract(
    profile: u32,
    key: &[u8],
    digest: &[u8],
    first: &[u8],
    second: &[u8],
    out1: &mut [u8],
    out2: &mut [u8],
) -> Answer
    ensures { Extracted profile key.now digest.now first.now second.now out1.old out2.old (said result) out1.new out2.new }
{
    let named = Profile::try_from(profile)?;
    if !sized(key.len(), digest.len(), out1.len(), out2.len()) {
        return Err(Reason::Size.at(0));
    }
    let p = told(1, attestation::verify(profile, key, digest, first))?;
    let q = told(2, attestation::verify(profile, key, digest, second))?;
    if p == q {
        return Err(Reason::NoContradiction.at(0));
    }
    let first = Attestation { octets: first };
    let second = Attestation { octets: second };
    let i = walk::passed(named, first, second, key);
    out1.copy_from_slice(&judge::record_below(named, first, key, i));
    out2.copy_from_slice(&judge::record_below(named, second, key, i));
    Ok(i as u32)
}
