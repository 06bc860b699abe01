// The line that the program prints.
ghost use Rattle.std.specs.Prelude.{◌≡◌, ◌+◌, ◌≤◌, length};
ghost use Rattle.octets.specs.Put.{Wrote};
ghost use Rattle.digest.specs.Line.{accepted_line, digest_line};

use profile::Profile;

// Writes the line of an accepted list at the front of out, and returns its length.
fn put_accepted(out: &mut [u8], n: u32, digest: &[u8; 32]) -> usize
    requires { 96 ≤ length out.old }
    ensures { Wrote out.old 0 (accepted_line n digest.now) out.new result }
{
    let a = octets::put(out, 0, b"digest ");
    let b = show::put_decimal(out, a, n);
    let c = octets::put(out, b, b" ");
    let d = show::put_hex(out, c, digest);
    octets::put(out, d, b"\n")
}

// Writes the line for a list's text at the front of out, and returns its length.
pub fn digest_line(text: &[u8], out: &mut [u8]) -> usize
    requires { 96 ≤ length out.old }
    ensures { (Wrote out.old 0 (digest_line text.now) out.new result) × (result ≤ 96) }
{
    // no heap: room for the most keys that a list may have
    let mut keys = [0u8; 60000];
    match sagebutton::read_list(text, &mut keys) {
        Ok(n) => {
            let end = 20 * n as usize;
            let mut d = [0u8; 32];
            // what was read is always accepted
            let _ = sagebutton::digest(Profile::Full.number(), &keys[..end], &mut d);
            put_accepted(out, n, &d)
        }
        Err(refusal) => show::put_refusal(out, refusal.reason.number(), refusal.place),
    }
}
