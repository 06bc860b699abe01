// Numbers and octets as text, written into a lent buffer at a running offset. Not by `Display`: by its contract a `fmt` may always fail,
// and these can't.
#![tactic(auto)]

ghost use Rattle.std.specs.Prelude.{◌≡◌, ◌+◌, ◌*◌, ◌≤◌, ◌<◌, length};
ghost use Rattle.octets.specs.Put.{Wrote};
ghost use Rattle.show.specs.Decimal.{decimal};
ghost use Rattle.show.specs.Hex.{hex_digit, hex};
ghost use Rattle.show.specs.Refusal.{refusal_line};

// The digit of a number below 16, in lower case.
fn digit_of(n: u8) -> u8
    requires { n < 16 }
    ensures { result ≡ hex_digit n }
{
    if n < 10 { 48 + n } else { 87 + n }
}

// Writes n in decimal from index at on, and returns the index past it.
pub fn put_decimal(out: &mut [u8], at: usize, n: u32) -> usize
    requires { at + length (decimal n) ≤ length out.old }
    ensures { Wrote out.old at (decimal n) out.new result }
{
    let d = [48 + (n % 10) as u8];
    if n < 10 {
        return octets::put(out, at, &d);
    }
    let p = put_decimal(out, at, n / 10);
    octets::put(out, p, &d)
}

// Writes two hex digits per octet of src from index at on, and returns the index past them.
pub fn put_hex(out: &mut [u8], at: usize, src: &[u8]) -> usize
    requires { at + 2 * length src.now ≤ length out.old }
    ensures { Wrote out.old at (hex src.now) out.new result }
{
    let mut p = at;
    for octet in src {
        p = octets::put(out, p, &[digit_of(octet / 16), digit_of(octet % 16)]);
    }
    p
}

// Writes the line of a refusal at the front of out, and returns its length.
pub fn put_refusal(out: &mut [u8], number: u16, place: u32) -> usize
    requires { 25 ≤ length out.old }
    ensures { Wrote out.old 0 (refusal_line number place) out.new result }
{
    let a = octets::put(out, 0, b"refused ");
    let b = put_decimal(out, a, number as u32);
    let c = octets::put(out, b, b" ");
    let d = put_decimal(out, c, place);
    octets::put(out, d, b"\n")
}
