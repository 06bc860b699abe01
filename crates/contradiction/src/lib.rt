// The drill (02, vi): for a list of one code, a number whose one-node tree has the same short label, and what the extractor shows of
// the two.
#![tactic(auto)]

mod handing;
mod number;
mod trial;

ghost use Rattle.std.specs.Prelude.{◌≡◌, length};
ghost use Rattle.contradiction.specs.Outcome.{said_found};
ghost use Rattle.contradiction.specs.Trial.{first_alike};
ghost use Rattle.contradiction.specs.Drill.{tried, CarriedOut, Drilled};

use answer::{Reason, Refusal};

// Tries at most `bound` numbers for the listed key, and hands the first that is alike to the extractor.
fn contradict(
    listed: &[u8; 20],
    bound: u32,
    out1: &mut [u8],
    out2: &mut [u8],
) -> Result<Option<u32>, Refusal>
    requires { (length out1.old ≡ 85) × (length out2.old ≡ 85) }
    ensures { CarriedOut (tried listed.now (first_alike listed.now bound 0)) out1.old out2.old (said_found result) out1.new out2.new }
{
    let Some(n) = trial::first_alike(listed, bound) else {
        return Ok(None);
    };
    handing::hand_over(listed, n, out1, out2)?;
    Ok(Some(n))
}

// Reads a list of one code, tries keys as numbers upward from zero, the listed one skipped, at most `bound` of them, and writes the
// listed key's node record into out1 and the found number's into out2, 85 octets each, and answers that number. Where nothing is found
// or the list is refused, both stay as they were: a buffer not 85 octets (1), reading's refusals, more than one code (16 at 2).
pub fn drill(
    text: &[u8],
    bound: u32,
    out1: &mut [u8],
    out2: &mut [u8],
) -> Result<Option<u32>, Refusal>
    ensures { Drilled text.now bound out1.old out2.old (said_found result) out1.new out2.new }
{
    if out1.len() != 85 || out2.len() != 85 {
        return Err(Reason::Size.at(0));
    }
    // no heap: room for the 3,000 keys that a list may have
    let mut keys = [0u8; 60000];
    let n = codes::read_list(text, &mut keys)?;
    if 1 < n {
        return Err(Reason::MoreCodes.at(2));
    }
    let mut listed = [0; 20];
    listed.copy_from_slice(&keys[..20]);
    contradict(&listed, bound, out1, out2)
}
