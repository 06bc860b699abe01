// The profiles (02, vi): which there are, and the label that a node record has in each.
#![tactic(auto)]

ghost use Rattle.std.specs.Prelude.{◌≡◌, ◌^◌, ◌<◌, length};
ghost use Rattle.profile.specs.Profile as specs;
ghost use Rattle.profile.specs.Named.{number_of_profile, Names};

use answer::{Reason, Refusal};

// What a label keeps of a hash.
#[derive(Clone, Copy, Debug, PartialEq, Eq)]
pub enum Profile {
    Full = 0,
    Drill = 1,
}

// The profile of a caller's number, of which there may be none.
impl TryFrom<u32> for Profile {
    type Error = Refusal;

    ghost try_from_gives = { Names };

    fn try_from(number: u32) -> Result<Profile, Refusal> {
        match number {
            0 => Ok(Profile::Full),
            1 => Ok(Profile::Drill),
            _ => Err(Reason::UnknownProfile.at(0)),
        }
    }
}

// Whether there is a profile of this number.
#[tactic(auto, using(crate::proofs::ProfileLaws::known_by_number))]
pub fn known(profile: u32) -> bool
    ensures { result ≡ specs.known profile }
{
    Profile::try_from(profile).is_ok()
}

// The label of a record in the profile of this number; where there is none, the full one.
#[tactic(auto, using(crate::proofs::ProfileLaws::label_by_number))]
pub fn label(profile: u32, rec: &[u8]) -> [u8; 32]
    requires { length rec.now < 2 ^ 61 }
    ensures { result ≡ specs.label profile rec.now }
{
    Profile::try_from(profile)
        .unwrap_or(Profile::Full)
        .label(rec)
}

impl Profile {
    // Its number, for callers.
    pub fn number(self) -> u32
        ensures { result ≡ number_of_profile self }
    {
        self as u32
    }

    // The record's label: its SHA-256, of which the drill keeps the first 2 octets, before 30 zeros.
    pub fn label(self, rec: &[u8]) -> [u8; 32]
        requires { length rec.now < 2 ^ 61 }
        ensures { result ≡ specs.label (number_of_profile self) rec.now }
    {
        let hash = sha256::sha256(rec);
        match self {
            Profile::Full => hash,
            Profile::Drill => {
                let mut short = [0u8; 32];
                short[..2].copy_from_slice(&hash[..2]);
                short
            }
        }
    }
}
