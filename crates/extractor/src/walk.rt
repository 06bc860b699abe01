// The walk: from the roots downward, level by level, to the first level where the two node records differ.
ghost use Rattle.std.specs.Prelude.{◌≡◌, ◌<◌, get_or};
ghost use Rattle.std.proofs.Math.Option.{some};
ghost use Rattle.octets.specs.Order.{same};
ghost use Rattle.attester.specs.Path.{down};
ghost use Rattle.attester.specs.Verdict.{root_record};
ghost use Rattle.attester.specs.Walk.{walk};
ghost use Rattle.attester.specs.Demand3.{Walked};
ghost use Rattle.profile.specs.Profile.{label};
ghost use Rattle.profile.specs.Named.{number_of_profile};
ghost use Rattle.attestation.specs.Shown.{shown};
ghost use Rattle.extractor.specs.Walk.{pair};

use attestation::judge;
use attestation::shown::Attestation;
use profile::Profile;

// Whether the two records, in a profile, i levels below the roots are the same.
fn agree(
    profile: Profile,
    first: Attestation<'_>,
    second: Attestation<'_>,
    x: &[u8],
    i: usize,
) -> bool
    requires { (i < get_or first.octets.now 0 0) × (i < get_or second.octets.now 0 0) }
    ensures { result ≡ same (root_record (label (number_of_profile profile)) x.now (down i (shown first.entry.octets.now))) (root_record (label (number_of_profile profile)) x.now (down i (shown second.entry.octets.now))) }
{
    octets::same(
        &judge::record_below(profile, first, x, i),
        &judge::record_below(profile, second, x, i),
    )
}

// How many levels pass before that one.
pub fn passed(profile: Profile, first: Attestation<'_>, second: Attestation<'_>, x: &[u8]) -> usize
    requires { Walked (label (number_of_profile profile)) x.now (shown first.octets.now) (shown second.octets.now) }
    ensures is { walk (label (number_of_profile profile)) x.now (shown first.entry.octets.now) (shown second.entry.octets.now) ≡ some (pair (label (number_of_profile profile)) x.now (shown first.entry.octets.now) (shown second.entry.octets.now) result) }
    ensures in_first { result < get_or first.entry.octets.now 0 0 }
    ensures in_second { result < get_or second.entry.octets.now 0 0 }
{
    // no range: only the test knows where the walk ends
    let mut i = 0;
    while agree(profile, first, second, x, i) {
        i += 1;
    }
    i
}
