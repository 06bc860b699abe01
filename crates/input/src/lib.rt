// An input, such as standard input, read to its end.
#![tactic(auto)]

ghost use Rattle.std.specs.Prelude.{◌≤◌, length, IfOk};
ghost use Rattle.input.specs.Input.{Took};

use std::io;
use std::io::Read;

// Reads into the front of text, to the end of the input or of the buffer, and returns how many octets. A failed read is told apart
// from the input's end, so that no list loses its tail in silence; one that a signal interrupts counts as one that failed.
pub fn read_text<R: Read>(input: &mut R, text: &mut [u8]) -> io::Result<usize>
    ensures room { IfOk result (λ n. n ≤ length text.old) }
    ensures took { IfOk result (λ n. Took (R.remaining input.old) (R.remaining input.new) text.new n) }
{
    let mut n = 0;
    // no `for`: each read gives as many octets as it has
    while n < text.len() {
        let more = input.read(&mut text[n..])?;
        if more == 0 {
            break;
        }
        n += more;
    }
    Ok(n)
}
