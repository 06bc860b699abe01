// The program: reads a list on standard input and prints its digest, or its refusal, as one line.
#![tactic(auto)]

mod line;

use std::io::Write;

fn main(rt: HostRuntime) {
    // no heap; one octet more than a list may have, so that a longer one is seen to be longer
    let mut text = [0u8; 65536];
    let Ok(n) = input::read_text(&mut rt.stdin(), &mut text) else {
        let _ = rt
            .stderr()
            .write_all(b"digest: standard input could not be read to its end\n");
        return;
    };
    let mut out = [0u8; 96];
    let end = line::digest_line(&text[..n], &mut out);
    if rt.stdout().write_all(&out[..end]).is_err() {
        let _ = rt
            .stderr()
            .write_all(b"digest: the line could not be written\n");
    }
}
