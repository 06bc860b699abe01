// The drill program: reads a list of one code on standard input and prints two node records with the same short label, one a line,
// or `none`, or the list's refusal.
#![tactic(auto)]

mod line;

use std::io::Write;

fn main(rt: HostRuntime) {
    // no heap; one octet more than a list may have, so that a longer one is seen to be longer
    let mut text = [0u8; 65536];
    let Ok(n) = input::read_text(&mut rt.stdin(), &mut text) else {
        let _ = rt
            .stderr()
            .write_all(b"drill: standard input could not be read to its end\n");
        return;
    };
    let mut out = [0u8; 342];
    let end = line::drill_lines(&text[..n], &mut out);
    if rt.stdout().write_all(&out[..end]).is_err() {
        let _ = rt
            .stderr()
            .write_all(b"drill: the lines could not be written\n");
    }
}
