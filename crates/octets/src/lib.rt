// Octet strings: their order, and writing one into a lent buffer at a running offset.
#![tactic(auto)]

ghost use Rattle.std.specs.Prelude.{◌≡◌, ◌+◌, ◌≤◌, length};
ghost use Rattle.octets.specs.Order.{order, is_less};
ghost use Rattle.octets.specs.Order as specs;
ghost use Rattle.octets.specs.Compared.{order_of};
ghost use Rattle.octets.specs.Put.{Wrote};
ghost use Rattle.octets.specs.Writer.{HasRoom, Writes};

use std::cmp::Ordering;

// Compares octet by octet from the first, as unsigned numbers; of two that agree as far as both go, the shorter is less.
#[tactic(auto, using(crate::proofs::CompareLaws::order_of_cmp))]
pub fn compare(a: &[u8], b: &[u8]) -> Ordering
    ensures { order_of result ≡ order a.now b.now }
{
    a.cmp(b)
}

// Whether the octets are the same, one by one.
#[tactic(auto, using(crate::proofs::CompareLaws::pointwise_same))]
pub fn same(a: &[u8], b: &[u8]) -> bool
    ensures { result ≡ specs.same a.now b.now }
{
    a == b
}

// Whether a stands below b.
#[tactic(auto, using(crate::proofs::CompareLaws::is_lt_order))]
pub fn below(a: &[u8], b: &[u8]) -> bool
    ensures { result ≡ is_less (order a.now b.now) }
{
    compare(a, b).is_lt()
}

// Copies all of src into out from index at, and returns the index past what was written.
pub fn put(out: &mut [u8], at: usize, src: &[u8]) -> usize
    requires { at + length src.now ≤ length out.old }
    ensures { Wrote out.old at src.now out.new result }
{
    let end = at + src.len();
    out[at..end].copy_from_slice(src);
    end
}

// A lent buffer that is written piece by piece: the next piece begins at index at.
#[derive(Drop)]
pub struct Writer<'a> {
    pub out: &'a mut [u8],
    pub at: usize,
}

impl Writer<'_> {
    // Writes all of src.
    pub fn put(&mut self, src: &[u8])
        requires { HasRoom self.old src.now }
        ensures { Writes self.old src.now self.new }
    {
        self.at = put(self.out, self.at, src);
    }
}
