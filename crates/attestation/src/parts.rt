// A search in a key list parted at its middle key, as its tree is; and its way through the parts.
ghost use Rattle.std.specs.Prelude.{◌≡◌, ◌+◌, ◌≤◌, [], length, take, drop};
ghost use Rattle.octets.specs.Order.{order};
ghost use Rattle.octets.specs.Compared.{order_of};
ghost use Rattle.attestation.specs.Parts.{Keyed, middle_at, middle_key, by_side, onward_part, aside_part};

use std::cmp::Ordering;

// The search for x among keys, 20 octets each, of which there is at least one.
#[derive(Clone, Copy)]
pub struct Search<'a> {
    pub keys: &'a [u8],
    pub x: &'a [u8],
    ghost keyed: { Keyed keys.now },
}

impl<'a> Search<'a> {
    ghost use Rattle.attestation.specs.Search.{Onward};

    // Where the middle key begins.
    #[tactic(auto, unfolding(crate::specs::Parts::middle_at))]
    fn middle_at(self) -> usize
        ensures { (result ≡ middle_at self.entry.keys.now) × (result + 20 ≤ length self.entry.keys.now) }
    {
        20 * (self.keys.len() / 20 / 2)
    }

    // That key, which is the root's.
    pub fn middle(self) -> &'a [u8]
        ensures { result.now ≡ middle_key self.entry.keys.now }
    {
        let at = self.middle_at();
        &self.keys[at..at + 20]
    }

    // The keys before it.
    pub fn before(self) -> &'a [u8]
        ensures { result.now ≡ take (middle_at self.entry.keys.now) self.entry.keys.now }
    {
        &self.keys[..self.middle_at()]
    }

    // The keys after it.
    pub fn after(self) -> &'a [u8]
        ensures { result.now ≡ drop (middle_at self.entry.keys.now + 20) self.entry.keys.now }
    {
        &self.keys[self.middle_at() + 20..]
    }

    // The keys on that side of it; none on neither.
    fn side(self, side: Ordering) -> &'a [u8]
        ensures { result.now ≡ by_side (order_of side) (take (middle_at self.entry.keys.now) self.entry.keys.now) [] (drop (middle_at self.entry.keys.now + 20) self.entry.keys.now) }
    {
        match side {
            Ordering::Less => self.before(),
            Ordering::Equal => &[],
            Ordering::Greater => self.after(),
        }
    }

    // Where x stands from the middle key.
    fn order(self) -> Ordering
        ensures { order_of result ≡ order self.entry.x.now (middle_key self.entry.keys.now) }
    {
        octets::compare(self.x, self.middle())
    }

    // The search among the keys on x's side, where there are any.
    #[tactic(auto, using(crate::proofs::PartsLaws::onward_is, crate::proofs::PartsLaws::side_keyed))]
    pub fn onward(self) -> Option<Search<'a>>
        ensures { Onward self.entry result }
    {
        let keys = self.side(self.order());
        if keys.len() < 20 {
            None
        } else {
            Some(Search { keys, x: self.x })
        }
    }

    // The keys on the other side; none where x is the middle key.
    #[tactic(auto, using(crate::proofs::PartsLaws::aside_is))]
    pub fn aside(self) -> &'a [u8]
        ensures { result.now ≡ aside_part self.entry.x.now self.entry.keys.now }
    {
        self.side(self.order().reverse())
    }
}
