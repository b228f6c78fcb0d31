//! Features that a client asks for.
ghost use Rattle.std.specs.Prelude.{◌≡◌, ◌*◌, IfOk, OnOk, length};
ghost use Rattle.mcbp_kv.specs.Features.{feature_code, feature_of, has_feature, with_feature_code, accepted, feature_bytes};

use bytes::{Bytes, BytesMut};
use std::alloc::{AllocError, Global};
use vb_types::Listed;

/// What a connection does only where its client has asked for it.
#[derive(Clone, Copy, Debug, PartialEq, Eq)]
pub enum Feature {
    /// The answer to a write names its branch and seqno.
    MutationSeqnos = 0x04,
    /// Documents are marked as JSON, or not.
    Json = 0x0b,
    /// Requests with framing extras.
    AltRequests = 0x10,
    /// Writes that are answered once they are durable.
    SyncReplication = 0x11,
}

const FEATURES: [Feature; 4] = [
    Feature::MutationSeqnos,
    Feature::Json,
    Feature::AltRequests,
    Feature::SyncReplication,
];

impl Feature {
    /// The number that stands for it on the wire.
    pub fn code(self) -> u16
        ensures { result ≡ feature_code self }
    {
        self as u16
    }

    /// The feature of a number, if there is one.
    fn from_code(code: u16) -> Option<Feature>
        ensures { result ≡ feature_of code }
    {
        FEATURES.iter().find(|f| code == f.code()).copied()
    }
}

fn has(features: &[Feature], wanted: Feature) -> bool
    ensures { result ≡ has_feature wanted features.now }
{
    features.iter().any(|f| f.code() == wanted.code())
}

/// Adds the feature of a number, if there is one and it is not there.
fn add_asked(features: &mut Listed<Feature>, code: u16) -> Result<(), AllocError>
    ensures { OnOk result (features.new ≡ with_feature_code features.old code) }
{
    match Feature::from_code(code) {
        Some(feature) if !has(features.as_slice(), feature) => features.push(feature),
        _ => Ok(()),
    }
}

/// The features that there are of those asked for, in the order asked, each once.
#[tactic(auto, unfolding(crate::specs::Features::accepted))]
pub fn accept(alloc: Global, asked: &[u8]) -> Result<Listed<Feature>, AllocError>
    ensures { IfOk result (λ features. features ≡ accepted asked.now) }
{
    let mut features = Listed::new(alloc);
    let mut rest = asked;
    while let [high, low, behind @ ..] = rest {
        add_asked(&mut features, u16::from_be_bytes([*high, *low]))?;
        rest = behind;
    }
    Ok(features)
}

/// The value of the answer that accepts these features.
#[tactic(auto, unfolding(crate::specs::Features::feature_bytes))]
pub fn hello_value(alloc: Global, features: &[Feature]) -> Result<Bytes, AllocError>
    ensures bytes { IfOk result (λ bytes. bytes ≡ feature_bytes features.now) }
    ensures length { IfOk result (λ bytes. length bytes ≡ 2 * length features.now) }
{
    let mut out = BytesMut::new(alloc);
    for feature in features {
        out.extend_from_slice(&feature.code().to_be_bytes())?;
    }
    Ok(out.freeze()?)
}
