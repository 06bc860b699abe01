// The static library for C and Rust callers of include/sagebutton.h: the face's functions by the same names, with the same contracts.
// C is to keep what a slice keeps here: the header says what that is.
#![tactic(auto)]

ghost use Rattle.sha256.specs.Hash.{Hashed};
ghost use Rattle.codes.specs.Read.{Read};
ghost use Rattle.answer.specs.Answer.{packed, verdict_packed};
ghost use Rattle.tree.specs.Digest.{Digested};
ghost use Rattle.attestation.specs.Attest.{Attested};
ghost use Rattle.attestation.specs.Verify.{Verified};
ghost use Rattle.extractor.specs.Extract.{Extracted};
ghost use Rattle.contradiction.specs.Drill.{Drilled, drill_packed};
ghost use Rattle.sagebutton.specs.Packed.{Packed};
ghost use Rattle.sagebutton.specs.Proved.{Proved};

#[unsafe(no_mangle)]
pub extern "C" fn sagebutton_hash(msg: &[u8], out: &mut [u8]) -> u64
    ensures { Packed packed (λ a. Hashed msg.now out.old a out.new) result }
{
    sagebutton::sagebutton_hash(msg, out)
}

#[unsafe(no_mangle)]
pub extern "C" fn sagebutton_read_list(text: &[u8], out: &mut [u8]) -> u64
    ensures { Packed packed (λ a. Read text.now out.old a out.new) result }
{
    sagebutton::sagebutton_read_list(text, out)
}

#[unsafe(no_mangle)]
pub extern "C" fn sagebutton_digest(profile: u32, keys: &[u8], out: &mut [u8]) -> u64
    ensures { Packed packed (λ a. Digested profile keys.now out.old a out.new) result }
{
    sagebutton::sagebutton_digest(profile, keys, out)
}

#[unsafe(no_mangle)]
pub extern "C" fn sagebutton_attest(profile: u32, key: &[u8], keys: &[u8], out: &mut [u8]) -> u64
    ensures { Packed packed (λ a. Attested profile key.now keys.now out.old a out.new) result }
{
    sagebutton::sagebutton_attest(profile, key, keys, out)
}

#[unsafe(no_mangle)]
pub extern "C" fn sagebutton_verify(profile: u32, key: &[u8], digest: &[u8], att: &[u8]) -> u64
    ensures { (Packed verdict_packed (Verified profile key.now digest.now att.now) result) × Proved }
{
    sagebutton::sagebutton_verify(profile, key, digest, att)
}

#[unsafe(no_mangle)]
pub extern "C" fn sagebutton_extract(
    profile: u32,
    key: &[u8],
    digest: &[u8],
    first: &[u8],
    second: &[u8],
    out1: &mut [u8],
    out2: &mut [u8],
) -> u64
    ensures { Packed packed (λ a. Extracted profile key.now digest.now first.now second.now out1.old out2.old a out1.new out2.new) result }
{
    sagebutton::sagebutton_extract(profile, key, digest, first, second, out1, out2)
}

#[unsafe(no_mangle)]
pub extern "C" fn sagebutton_drill(text: &[u8], bound: u32, out1: &mut [u8], out2: &mut [u8]) -> u64
    ensures { Packed drill_packed (λ a. Drilled text.now bound out1.old out2.old a out1.new out2.new) result }
{
    sagebutton::sagebutton_drill(text, bound, out1, out2)
}
