// The list as text: read_list takes a list of codes apart into keys, or refuses it with a number and a place.
#![tactic(auto)]

ghost use Rattle.answer.specs.Said.{said};
ghost use Rattle.codes.specs.Read.{Read};

use answer::Answer;

mod code;
mod count;
mod text;
mod write;

// Reads a list of codes. Answers the count and writes 20 octets per key to the front of out; a refusal writes nothing.
#[tactic(auto, using(crate::proofs::WriteLaws::read_refused))]
pub fn read_list(text: &[u8], out: &mut [u8]) -> Answer
    ensures { Read text.now out.old (said result) out.new }
{
    let (n, lines) = text::head(text)?;
    text::check_count(n, out.len())?;
    text::check_codes(lines, n)?;
    write::write_keys(lines, n as usize, out);
    Ok(n)
}
