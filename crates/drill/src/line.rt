// The lines that the program prints.
ghost use Rattle.std.specs.Prelude.{◌≤◌, length};
ghost use Rattle.octets.specs.Put.{Wrote};
ghost use Rattle.drill.specs.Line.{record_lines, drill_lines};

// Writes the two records' lines at the front of out, and returns their length.
fn put_records(out: &mut [u8], first: &[u8; 85], second: &[u8; 85]) -> usize
    requires { 342 ≤ length out.old }
    ensures { Wrote out.old 0 (record_lines first.now second.now) out.new result }
{
    let a = show::put_hex(out, 0, first);
    let b = octets::put(out, a, b"\n");
    let c = show::put_hex(out, b, second);
    octets::put(out, c, b"\n")
}

// Writes the lines for a list's text at the front of out, and returns their length.
pub fn drill_lines(text: &[u8], out: &mut [u8]) -> usize
    requires { 342 ≤ length out.old }
    ensures { (Wrote out.old 0 (drill_lines text.now) out.new result) × (result ≤ 342) }
{
    let mut first = [0u8; 85];
    let mut second = [0u8; 85];
    let found = match contradiction::drill(text, 1048576, &mut first, &mut second) {
        Ok(found) => found,
        Err(refusal) => return show::put_refusal(out, refusal.reason.number(), refusal.place),
    };
    match found {
        Some(_) => put_records(out, &first, &second),
        None => octets::put(out, 0, b"none\n"),
    }
}
