// An attestation of sound form: its keys, its optional labels, the foot's record.
#![tactic(auto, using(crate::proofs::ShownLaws::layout_laws), unfolding(attester::specs::Record::child_octets, attester::specs::Record::node_record, attester::specs::Record::flag))]

ghost use Rattle.std.specs.Prelude.{◌≡◌, suc, ◌+◌, ◌*◌, ◌≤◌, ◌<◌, length, get_or};
ghost use Rattle.attester.specs.Record.{child_octets, node_record};
ghost use Rattle.attestation.specs.Shown.{Formed, key_at, child_at, left_at, right_at, count_at};
ghost use Rattle.attestation.specs.Shown as shown;

// Octets that have an attestation's form.
#[derive(Clone, Copy)]
pub struct Attestation<'a> {
    pub octets: &'a [u8],
    ghost formed: { ∥ Formed octets.now ∥₁ },
}

impl<'a> Attestation<'a> {
    // How many keys it has: K, the number of its levels.
    pub fn levels(self) -> usize
        ensures { result ≡ get_or self.entry.octets.now 0 0 }
    {
        usize::from(self.octets[0])
    }

    // kj, from the foot's k0 on.
    pub fn key(self, j: usize) -> &'a [u8]
        requires { 21 + 20 * j ≤ length self.octets.now }
        ensures { result.now ≡ key_at self.entry.octets.now j }
    {
        &self.octets[1 + 20 * j..21 + 20 * j]
    }

    // The offset behind the optional label at offset at.
    pub fn behind(self, at: usize) -> usize
        requires { at < length self.octets.now }
        ensures { result ≡ shown.behind self.entry.octets.now at }
    {
        if self.octets[at] == 0 {
            at + 1
        } else {
            at + 33
        }
    }

    // The octets of the optional label at offset at, in a record: 32 zeros where it is absent.
    pub fn child(self, at: usize) -> [u8; 32]
        requires { (at < length self.octets.now) × (shown.behind self.octets.now at ≤ length self.octets.now) }
        ensures { result ≡ child_octets (child_at self.entry.octets.now at) }
    {
        let mut label = [0u8; 32];
        if 0 < self.octets[at] {
            label.copy_from_slice(&self.octets[at + 1..at + 33]);
        }
        label
    }

    // The offset of the foot's left label.
    pub fn left(self) -> usize
        ensures { result ≡ left_at self.entry.octets.now }
    {
        1 + 20 * self.levels()
    }

    // The offset of the first sibling: behind the foot's labels and the siblings' count.
    pub fn siblings(self) -> usize
        ensures { result ≡ suc (count_at self.entry.octets.now) }
    {
        self.behind(self.behind(self.left())) + 1
    }

    // The foot's record.
    pub fn foot_record(self) -> [u8; 85]
        ensures { result ≡ node_record (child_at self.entry.octets.now (left_at self.entry.octets.now)) (key_at self.entry.octets.now 0) (child_at self.entry.octets.now (right_at self.entry.octets.now)) }
    {
        let l = self.left();
        let r = self.behind(l);
        let flag = tree::labels::flag(0 < self.octets[l], 0 < self.octets[r]);
        tree::labels::node_record(flag, &self.child(l), self.key(0), &self.child(r))
    }
}
