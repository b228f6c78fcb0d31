//! Durability requirements, as framing extras.
ghost use Rattle.std.specs.Prelude.{◌≡◌, ◌≤◌, length};
ghost use Rattle.mcbp_kv.specs.Framing.{requirement_by_len, requirement_alone, requirement_of};

use vb_types::Status;

/// The id of a durability requirement.
const REQUIREMENT: u8 = 1;

/// A durability requirement as a frame names it. Its timeout is 0 where the frame names none.
#[derive(Clone, Copy)]
pub struct Requirement {
    pub level: u8,
    pub timeout: u16,
}

/// What a requirement of this length says.
fn said(len: usize, bytes: &[u8]) -> Requirement
    requires some { 1 ≤ len }
    requires there { len ≤ length bytes.now }
    ensures { result ≡ requirement_by_len len bytes.now }
{
    Requirement {
        level: bytes[0],
        timeout: if len == 3 {
            u16::from_be_bytes([bytes[1], bytes[2]])
        } else {
            0
        },
    }
}

/// What may stand behind a requirement: nothing.
fn alone(requirement: Requirement, behind: &[u8]) -> Result<Option<Requirement>, Status>
    ensures { result ≡ requirement_alone requirement behind.now }
{
    match behind.first() {
        None => Ok(Some(requirement)),
        Some(extra) if extra / 16 == REQUIREMENT => Err(Status::Einval),
        Some(_) => Err(Status::UnknownFrameInfo),
    }
}

/// What framing extras require, if they do, or the status of the first faulty one.
#[tactic(auto, unfolding(crate::specs::Framing::requirement_of))]
pub fn read_requirement(framing: &[u8]) -> Result<Option<Requirement>, Status>
    ensures { result ≡ requirement_of framing.now }
{
    let Some((extra, behind)) = framing.split_first() else {
        return Ok(None);
    };
    let len = (extra % 16) as usize;
    if extra / 16 != REQUIREMENT {
        return Err(Status::UnknownFrameInfo);
    }
    if (len != 1 && len != 3) || behind.len() < len {
        return Err(Status::Einval);
    }
    alone(said(len, behind), &behind[len..])
}
