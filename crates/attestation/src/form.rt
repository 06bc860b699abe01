// The attestation's form (01, "Verdict", step 2): read from the front, section by section, to the end or to the first octet
// that cannot stand there. Offsets stay, and not parts of the octets: they are the places of refusals, u32 there and usize here, and no
// `From` goes between the two.
ghost use Rattle.std.specs.Prelude.{◌≡◌, ◌+◌, ◌*◌, ◌≤◌, length, drop};
ghost use Rattle.answer.specs.Said.{said};
ghost use Rattle.attester.specs.Reader.{many};
ghost use Rattle.attester.specs.Form.{optional, sections};
ghost use Rattle.tree.specs.Edition.{width};
ghost use Rattle.attestation.specs.Form.{read_answer, keys_section, siblings_section};

use answer::{Answer, Reason};

// Where the keys end, whose number K, 1 to 32, stands in front.
fn keys_end(att: &[u8]) -> Answer
    ensures { said result ≡ read_answer (length att.now) (keys_section width att.now) }
{
    if att.is_empty() {
        return Err(Reason::Form.at(0));
    }
    let count = usize::from(att[0]);
    if count == 0 || 32 < count {
        return Err(Reason::Form.at(0));
    }
    let end = 1 + 20 * count;
    if att.len() < end {
        return Err(Reason::Form.at(att.len() as u32));
    }
    Ok(end as u32)
}

// Where the optional label at offset at ends.
fn optional_end(att: &[u8], at: usize) -> Answer
    requires { (at ≤ length att.now) × (at ≤ 1731) }
    ensures { said result ≡ read_answer (length att.now) (optional (drop at att.now)) }
{
    if att.len() <= at {
        return Err(Reason::Form.at(att.len() as u32));
    }
    if 1 < att[at] {
        return Err(Reason::Form.at(at as u32));
    }
    if att[at] == 0 {
        return Ok(at as u32 + 1);
    }
    if att.len() < at + 33 {
        return Err(Reason::Form.at(att.len() as u32));
    }
    Ok(at as u32 + 33)
}

// Where the m optional labels from offset at on end.
fn optionals_end(att: &[u8], at: usize, m: usize) -> Answer
    requires { (at ≤ length att.now) × (at + 33 * m ≤ 1731) }
    ensures { said result ≡ read_answer (length att.now) (many optional m (drop at att.now)) }
{
    let mut end = at;
    for read in 0..m {
        end = optional_end(att, end)? as usize;
    }
    Ok(end as u32)
}

// Where the m siblings end, whose number stands in front of them, at offset at.
fn siblings_end(att: &[u8], at: usize, m: usize) -> Answer
    requires { (at ≤ length att.now) × (at + 33 * m ≤ 1730) }
    ensures { said result ≡ read_answer (length att.now) (siblings_section m (drop at att.now)) }
{
    if att.len() <= at {
        return Err(Reason::Form.at(att.len() as u32));
    }
    if usize::from(att[at]) != m {
        return Err(Reason::Form.at(at as u32));
    }
    optionals_end(att, at + 1, m)
}

// Whether att has the form: its length, or where the form breaks.
pub fn form(att: &[u8]) -> Answer
    ensures { said result ≡ read_answer (length att.now) (sections width att.now) }
{
    let keys = keys_end(att)? as usize;
    let left = optional_end(att, keys)? as usize;
    let right = optional_end(att, left)? as usize;
    let end = siblings_end(att, right, usize::from(att[0]) - 1)?;
    if (end as usize) < att.len() {
        return Err(Reason::Form.at(end));
    }
    Ok(end)
}
