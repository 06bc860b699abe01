// What the extractor makes of the listed key and a number that is alike.
ghost use Rattle.std.specs.Prelude.{◌≡◌, [], ◌∷◌, length};
ghost use Rattle.answer.specs.Said.{said};
ghost use Rattle.profile.specs.Profile as profiles;
ghost use Rattle.attester.specs.Attestation.{attestation};
ghost use Rattle.attester.specs.Label.{digest};
ghost use Rattle.extractor.specs.Extract.{Extracted};
ghost use Rattle.contradiction.specs.Trial.{number_key};

use super::number;
use answer::Answer;
use profile::Profile;

// Hands the extractor the number's Absent under the listed key's tree and its Present under its own, for the two node records in
// out1 and out2.
pub fn hand_over(listed: &[u8; 20], n: u32, out1: &mut [u8], out2: &mut [u8]) -> Answer
    ensures { Extracted profiles.drill (number_key n) (digest (profiles.label profiles.drill) (listed.now ∷ [])) (attestation (profiles.label profiles.drill) (listed.now ∷ []) (number_key n)) (attestation (profiles.label profiles.drill) (number_key n ∷ []) (number_key n)) out1.old out2.old (said result) out1.new out2.new }
{
    let drill = Profile::Drill.number();
    let x = number::key(n);
    let mut digest = [0u8; 32];
    let mut absent = [0u8; 24];
    let mut present = [0u8; 24];
    tree::digest(drill, listed, &mut digest)?;
    attestation::attest(drill, &x, listed, &mut absent)?;
    attestation::attest(drill, &x, &x, &mut present)?;
    extractor::extract(drill, &x, &digest, &absent, &present, out1, out2)
}
