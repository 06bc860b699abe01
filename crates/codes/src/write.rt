// Writing the keys of code lines that have been judged.
ghost use Rattle.std.specs.Prelude.{◌≡◌, ◌*◌, ◌≤◌, length};
ghost use Rattle.std.proofs.Math.Option.{none};
ghost use Rattle.answer.specs.Answer.{Done};
ghost use Rattle.octets.specs.Put.{put};
ghost use Rattle.codes.specs.Text.{codes};
ghost use Rattle.codes.specs.Read.{answer, keys};

use super::code::key_of;
use super::text::split_line;

// Writes the keys of n accepted code lines to the front of out.
pub fn write_keys(lines: &[u8], n: usize, out: &mut [u8])
    requires accepted { answer (codes n 3 none lines.now) ≡ Done n }
    requires room { 20 * n ≤ length out.old }
    ensures { out.new ≡ put out.old 0 (keys (codes n 3 none lines.now)) }
{
    let mut rest = lines;
    for i in 0..n {
        let (line, others) = split_line(rest).unwrap();
        octets::put(out, 20 * i, &key_of(line));
        rest = others;
    }
}
