// Node records and labels.
ghost use Rattle.std.specs.Prelude.{◌≡◌, ◌∷◌, ◌++◌, ◌/◌, length};
ghost use Rattle.profile.specs.Profile as specs;
ghost use Rattle.profile.specs.Named.{number_of_profile};
ghost use Rattle.tree.specs.Edition.{width};
ghost use Rattle.tree.specs.Labels.{flag_of, label_of};

use profile::Profile;

// Octet 0 of a node record: 1 if there is a left child plus 2 if there is a right one.
pub fn flag(left: bool, right: bool) -> u8
    ensures { result ≡ flag_of left right }
{
    u8::from(left) + 2 * u8::from(right)
}

// The node record: octet 0, the left child's label, the key, the right child's label. That an absent child is a flag and zeros, and no
// `Option`, is the record's own form (01).
pub fn node_record(flag: u8, left: &[u8], key: &[u8], right: &[u8]) -> [u8; 85]
    requires { (length left.now ≡ 32) × (length key.now ≡ width) × (length right.now ≡ 32) }
    ensures { result ≡ flag ∷ (left.now ++ (key.now ++ right.now)) }
{
    let mut rec = [flag; 85];
    let at = octets::put(&mut rec, 1, left);
    let then = octets::put(&mut rec, at, key);
    octets::put(&mut rec, then, right);
    rec
}

// The label in a profile of that record. Not inlined, so that the tree's label, which calls itself, holds no record at each level.
#[inline(never)]
fn node_label(profile: Profile, flag: u8, left: &[u8], key: &[u8], right: &[u8]) -> [u8; 32]
    requires { (length left.now ≡ 32) × (length key.now ≡ width) × (length right.now ≡ 32) }
    ensures { result ≡ specs.label (number_of_profile profile) (flag ∷ (left.now ++ (key.now ++ right.now))) }
{
    profile.label(&node_record(flag, left, key, right))
}

// The label in a profile of the tree of these keys, 20 octets each: of its root, whose subtrees are labelled by the same rule; 32 zeros
// where there are no keys.
pub fn tree_label(profile: Profile, keys: &[u8]) -> [u8; 32]
    ensures { result ≡ label_of (specs.label (number_of_profile profile)) width keys.now }
{
    let n = keys.len() / 20;
    if n == 0 {
        return [0u8; 32];
    }
    let before = n / 2;
    let after = n - before - 1;
    let at = 20 * before;
    let left = tree_label(profile, &keys[..at]);
    let right = tree_label(profile, &keys[at + 20..]);
    let f = flag(0 < before, 0 < after);
    node_label(profile, f, &left, &keys[at..at + 20], &right)
}

// The same of a profile that is told by its number; where there is none of that number, the full label.
#[tactic(auto, using(crate::proofs::LabelLaws::label_by_number))]
pub fn label(profile: u32, keys: &[u8]) -> [u8; 32]
    ensures { result ≡ label_of (specs.label profile) width keys.now }
{
    tree_label(Profile::try_from(profile).unwrap_or(Profile::Full), keys)
}
