// Judging an attestation of sound form (01, "Verdict", steps 3 to 6). Only the comparison with x tells left from right.
#![tactic(auto, using(crate::proofs::ShownLaws::layout_laws))]

ghost use Rattle.std.specs.Prelude.{◌≡◌, ◌≤◌, ◌<◌, length, get_or};
ghost use Rattle.std.specs.Option.{IfSome};
ghost use Rattle.answer.specs.Said.{said_verdict};
ghost use Rattle.attester.specs.Path.{down};
ghost use Rattle.attester.specs.Verdict.{side, join, root_record};
ghost use Rattle.attester.specs.Verdict as verdict;
ghost use Rattle.profile.specs.Profile.{label};
ghost use Rattle.profile.specs.Named.{number_of_profile};
ghost use Rattle.attestation.specs.Shown.{Formed, shown, key_at, child_at, behind, place};
ghost use Rattle.attestation.specs.Verify.{verdict_of};

use crate::shown::Attestation;
use answer::{Reason, Refusal, Verdict};
use profile::Profile;
use std::cmp::Ordering;

// Step 3: whether there is a child at the foot where x would be.
fn hidden(att: Attestation<'_>, x: &[u8]) -> bool
    ensures { result ≡ verdict.hidden x.now (shown att.entry.octets.now) }
{
    let l = att.left();
    let r = att.behind(l);
    match octets::compare(x, att.key(0)) {
        Ordering::Less => 0 < att.octets[l],
        Ordering::Equal => false,
        Ordering::Greater => 0 < att.octets[r],
    }
}

// Step 4: the smallest j > 0 with x = kj or k(j-1) = kj, where there is one.
fn fault(att: Attestation<'_>, x: &[u8]) -> Option<usize>
    ensures smallest { place result ≡ verdict.fault x.now (shown att.entry.octets.now) }
    ensures few { IfSome result (λ j. j ≤ 32) }
{
    for j in 1..att.levels() {
        let k = att.key(j);
        if octets::same(x, k) || octets::same(att.key(j - 1), k) {
            return Some(j);
        }
    }
    None
}

// Step 5, one level up: the record of the key k, with the label so far on x's side and the sibling at offset at on the other.
fn above(att: Attestation<'_>, at: usize, x: &[u8], k: &[u8], label: &[u8]) -> [u8; 85]
    requires { (at < length att.octets.now) × (behind att.octets.now at ≤ length att.octets.now) × (length k.now ≡ 20) × (length label.now ≡ 32) }
    ensures { result ≡ join (side x.now k.now) k.now (child_at att.entry.octets.now at) label.now }
{
    let there = 0 < att.octets[at];
    let sibling = att.child(at);
    if octets::compare(x, k).is_gt() {
        tree::labels::node_record(tree::labels::flag(there, true), &sibling, k, label)
    } else {
        tree::labels::node_record(tree::labels::flag(true, there), label, k, &sibling)
    }
}

// Step 5: the record so many levels below the root, from the foot's record and the labels, in a profile, up to there.
pub fn record_below(profile: Profile, att: Attestation<'_>, x: &[u8], below: usize) -> [u8; 85]
    requires { below < get_or att.octets.now 0 0 }
    ensures { result ≡ root_record (label (number_of_profile profile)) x.now (down below (shown att.entry.octets.now)) }
{
    let mut at = att.siblings();
    let mut rec = att.foot_record();
    for j in 1..att.levels() - below {
        let label = profile.label(&rec);
        rec = above(att, at, x, att.key(j), &label);
        at = att.behind(at);
    }
    rec
}

// Steps 3 to 6, in a profile.
pub fn judgement(
    profile: Profile,
    x: &[u8],
    d: &[u8],
    att: Attestation<'_>,
) -> Result<Verdict, Refusal>
    ensures { said_verdict result ≡ verdict_of (verdict.judge (label (number_of_profile profile)) x.now d.now (shown att.entry.octets.now)) }
{
    if hidden(att, x) {
        return Err(Reason::ChildAtFoot.at(0));
    }
    if let Some(j) = fault(att, x) {
        return Err(Reason::KeyAbove.at(j as u32));
    }
    let root = profile.label(&record_below(profile, att, x, 0));
    if !octets::same(&root, d) {
        return Err(Reason::OtherDigest.at(0));
    }
    if octets::same(x, att.key(0)) {
        Ok(Verdict::Present)
    } else {
        Ok(Verdict::Absent)
    }
}

// Step 5 likewise, of octets that have the form, in the profile of this number; where there is no such profile, by the full label.
pub fn record(profile: u32, att: &[u8], x: &[u8], below: usize) -> [u8; 85]
    requires { Formed att.now × (below < get_or att.now 0 0) }
    ensures { result ≡ root_record (label profile) x.now (down below (shown att.now)) }
{
    let named = Profile::try_from(profile).unwrap_or(Profile::Full);
    record_below(named, Attestation { octets: att }, x, below)
}

// Steps 3 to 6 likewise, of such octets, in the profile of this number or else by the full label.
pub fn judge(profile: u32, x: &[u8], d: &[u8], att: &[u8]) -> Result<Verdict, Refusal>
    requires { Formed att.now }
    ensures { said_verdict result ≡ verdict_of (verdict.judge (label profile) x.now d.now (shown att.now)) }
{
    let profile = Profile::try_from(profile).unwrap_or(Profile::Full);
    judgement(profile, x, d, Attestation { octets: att })
}
