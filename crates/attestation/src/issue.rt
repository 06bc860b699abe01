// Issuing an attestation: the path of the search is followed down the halves of the key list, and its sections are written
// as the calls come back, so that the foot stands first. Where a contract is over any H, the labels do not matter.
#![tactic(auto, using(octets::proofs::WriterLaws::pieces, crate::proofs::IssueLaws::levels))]

ghost use Rattle.std.specs.Prelude.{◌≡◌, suc, ◌≤◌, length};
ghost use Rattle.octets.specs.Put.{Wrote};
ghost use Rattle.octets.specs.Writer.{HasRoom, Writes};
ghost use Rattle.octets.specs.Order.{Octets};
ghost use Rattle.profile.specs.Profile.{label};
ghost use Rattle.profile.specs.Named.{number_of_profile};
ghost use Rattle.attester.specs.Record.{bit};
ghost use Rattle.attester.specs.Path.{height};
ghost use Rattle.attester.specs.Attestation.{optional_octets, render};
ghost use Rattle.attester.proofs.LengthLaws.{levels_length};
ghost use Rattle.tree.specs.Edition.{width};
ghost use Rattle.attestation.specs.Parts.{child_of, key_octets, foot_octets, sibling_octets};
ghost use Rattle.attestation.specs.Search.{path_by, path_of};

use crate::parts::Search;
use octets::Writer;
use profile::Profile;

// 1 if these keys make a child, 0 if there are none.
#[tactic(auto, using(crate::proofs::IssueLaws::child_none, crate::proofs::IssueLaws::child_bit))]
fn child_bit(keys: &[u8]) -> usize
    ensures { ((H : Octets → Octets) → result ≡ bit (child_of H keys.now)) × (result ≤ 1) }
{
    usize::from(20 <= keys.len())
}

// The five that follow the path stay five: each does another thing on the way back, and a closure for that would need what they now
// promise in its own clauses.

// How many octets the levels of the path take: each a key, a count and its labels.
pub fn levels_length(search: Search<'_>) -> usize
    ensures { (H : Octets → Octets) → result ≡ levels_length width (path_by H search.entry) }
{
    match search.onward() {
        Some(on) => 21 + 32 * child_bit(search.aside()) + levels_length(on),
        None => 21 + 32 * (child_bit(search.before()) + child_bit(search.after())),
    }
}

// How many keys stand on the path.
fn levels(search: Search<'_>) -> u8
    ensures { (H : Octets → Octets) → result ≡ suc (height (path_by H search.entry)) }
{
    match search.onward() {
        Some(on) => levels(on) + 1,
        None => 1,
    }
}

// Writes the keys of the path, the foot's first.
fn put_keys(search: Search<'_>, w: &mut Writer<'_>)
    requires { (H : Octets → Octets) → HasRoom w.old (key_octets (path_by H search)) }
    ensures { (H : Octets → Octets) → Writes w.old (key_octets (path_by H search.entry)) w.new }
{
    if let Some(on) = search.onward() {
        put_keys(on, w);
    }
    w.put(search.middle());
}

// Writes the optional label of the subtree of these keys.
#[tactic(auto, using(octets::proofs::WriterLaws::pieces, crate::proofs::IssueLaws::optional_none, crate::proofs::IssueLaws::optional_some))]
fn put_optional(profile: Profile, keys: &[u8], w: &mut Writer<'_>)
    requires { HasRoom w.old (optional_octets (child_of (label (number_of_profile profile)) keys.now)) }
    ensures { Writes w.old (optional_octets (child_of (label (number_of_profile profile)) keys.now)) w.new }
{
    if keys.len() < 20 {
        w.put(&[0]);
    } else {
        w.put(&[1]);
        w.put(&tree::labels::tree_label(profile, keys));
    }
}

// Writes the optional labels of the foot's two children.
fn put_foot(profile: Profile, search: Search<'_>, w: &mut Writer<'_>)
    requires { HasRoom w.old (foot_octets (path_of profile search)) }
    ensures { Writes w.old (foot_octets (path_of profile search.entry)) w.new }
{
    match search.onward() {
        Some(on) => put_foot(profile, on, w),
        None => {
            put_optional(profile, search.before(), w);
            put_optional(profile, search.after(), w);
        }
    }
}

// Writes the siblings of the path, the lowest first.
fn put_siblings(profile: Profile, search: Search<'_>, w: &mut Writer<'_>)
    requires { HasRoom w.old (sibling_octets (path_of profile search)) }
    ensures { Writes w.old (sibling_octets (path_of profile search.entry)) w.new }
{
    if let Some(on) = search.onward() {
        put_siblings(profile, on, w);
        put_optional(profile, search.aside(), w);
    }
}

// Writes the attestation in a profile to the front of out.
pub fn put_attestation(profile: Profile, search: Search<'_>, out: &mut [u8]) -> usize
    requires { length (render (path_of profile search)) ≤ length out.old }
    ensures { Wrote out.old 0 (render (path_of profile search.entry)) out.new result }
{
    let mut w = Writer { out, at: 0 };
    let k = levels(search);
    w.put(&[k]);
    put_keys(search, &mut w);
    put_foot(profile, search, &mut w);
    w.put(&[k - 1]);
    put_siblings(profile, search, &mut w);
    w.at
}
