// The face of Sagebutton: each public function, for Rattle callers by its name and, with its answer as one number, by its name after
// `sagebutton_`, as the crate sagebutton_c exports it to C and Rust callers. None asks anything of its caller: every input is answered,
// or refused with a number and a place. A profile is 0 for full labels and 1 for the drill's; a digest does not carry it, so one
// number is for the caller to keep throughout.
#![tactic(auto)]

ghost use Rattle.answer.specs.Said.{said, said_verdict};
ghost use Rattle.sha256.specs.Hash.{Hashed};
ghost use Rattle.codes.specs.Read.{Read};
ghost use Rattle.answer.specs.Answer.{packed, verdict_packed};
ghost use Rattle.tree.specs.Digest.{Digested};
ghost use Rattle.attestation.specs.Attest.{Attested};
ghost use Rattle.attestation.specs.Verify.{Verified};
ghost use Rattle.extractor.specs.Extract.{Extracted};
ghost use Rattle.contradiction.specs.Outcome.{said_found};
ghost use Rattle.contradiction.specs.Drill.{Drilled, drill_packed};
ghost use Rattle.sagebutton.specs.Packed.{Packed};
ghost use Rattle.sagebutton.specs.Proved.{Proved};

use answer::{Answer, Refusal, Verdict};

// The SHA-256 of a message of 0 to 65,535 octets, into exactly 32 octets; answers the message's length.
pub fn hash(msg: &[u8], out: &mut [u8]) -> Answer
    ensures { Hashed msg.now out.old (said result) out.new }
{
    sha256::hash(msg, out)
}

// The keys of a list of codes, 20 octets each, into the front of out; answers the count.
pub fn read_list(text: &[u8], out: &mut [u8]) -> Answer
    ensures { Read text.now out.old (said result) out.new }
{
    codes::read_list(text, out)
}

// The digest of a key list, 20 octets a key, into exactly 32 octets; answers the number of keys.
pub fn digest(profile: u32, keys: &[u8], out: &mut [u8]) -> Answer
    ensures { Digested profile keys.now out.old (said result) out.new }
{
    tree::digest(profile, keys, out)
}

// The attestation for a key under a key list, 20 octets a key, into the front of out; answers its length.
pub fn attest(profile: u32, key: &[u8], keys: &[u8], out: &mut [u8]) -> Answer
    ensures { Attested profile key.now keys.now out.old (said result) out.new }
{
    attestation::attest(profile, key, keys, out)
}

// The verdict on any octets as an attestation for a key under a digest.
pub fn verify(profile: u32, key: &[u8], digest: &[u8], att: &[u8]) -> Result<Verdict, Refusal>
    ensures { Verified profile key.now digest.now att.now (said_verdict result) }
{
    attestation::verify(profile, key, digest, att)
}

// Two different node records with the same label, one from each of two attestations that contradict each other, into 85 octets each;
// answers the number of levels passed before them.
pub fn extract(
    profile: u32,
    key: &[u8],
    digest: &[u8],
    first: &[u8],
    second: &[u8],
    out1: &mut [u8],
    out2: &mut [u8],
) -> Answer
    ensures { Extracted profile key.now digest.now first.now second.now out1.old out2.old (said result) out1.new out2.new }
{
    extractor::extract(profile, key, digest, first, second, out1, out2)
}

// From the text of a list with one code, two different node records with the same label in the drill, that code's and a number's, into
// 85 octets each; answers the number, the first of at most `bound` that are tried, or that there is none.
pub fn drill(
    text: &[u8],
    bound: u32,
    out1: &mut [u8],
    out2: &mut [u8],
) -> Result<Option<u32>, Refusal>
    ensures { Drilled text.now bound out1.old out2.old (said_found result) out1.new out2.new }
{
    contradiction::drill(text, bound, out1, out2)
}

// One for each export: C has no generic functions.
pub fn sagebutton_hash(msg: &[u8], out: &mut [u8]) -> u64
    ensures { Packed packed (λ a. Hashed msg.now out.old a out.new) result }
{
    answer::pack(hash(msg, out))
}

pub fn sagebutton_read_list(text: &[u8], out: &mut [u8]) -> u64
    ensures { Packed packed (λ a. Read text.now out.old a out.new) result }
{
    answer::pack(read_list(text, out))
}

pub fn sagebutton_digest(profile: u32, keys: &[u8], out: &mut [u8]) -> u64
    ensures { Packed packed (λ a. Digested profile keys.now out.old a out.new) result }
{
    answer::pack(digest(profile, keys, out))
}

pub fn sagebutton_attest(profile: u32, key: &[u8], keys: &[u8], out: &mut [u8]) -> u64
    ensures { Packed packed (λ a. Attested profile key.now keys.now out.old a out.new) result }
{
    answer::pack(attest(profile, key, keys, out))
}

// Its contract also asks for `Proved`, what the functions say together: nothing else would miss those proofs.
pub fn sagebutton_verify(profile: u32, key: &[u8], digest: &[u8], att: &[u8]) -> u64
    ensures { (Packed verdict_packed (Verified profile key.now digest.now att.now) result) × Proved }
{
    answer::pack(verify(profile, key, digest, att))
}

pub fn sagebutton_extract(
    profile: u32,
    key: &[u8],
    digest: &[u8],
    first: &[u8],
    second: &[u8],
    out1: &mut [u8],
    out2: &mut [u8],
) -> u64
    ensures { Packed packed (λ a. Extracted profile key.now digest.now first.now second.now out1.old out2.old a out1.new out2.new) result }
{
    answer::pack(extract(profile, key, digest, first, second, out1, out2))
}

pub fn sagebutton_drill(text: &[u8], bound: u32, out1: &mut [u8], out2: &mut [u8]) -> u64
    ensures { Packed drill_packed (λ a. Drilled text.now bound out1.old out2.old a out1.new out2.new) result }
{
    answer::pack(drill(text, bound, out1, out2))
}
