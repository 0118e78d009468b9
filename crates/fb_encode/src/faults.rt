//! Why a tree of JSON gives no buffer.
use fb_build::BuildFault;
use fb_json::JsonFault;
use thiserror::Error;

/// Why a tree of JSON gives no buffer: it breaks a rule, or its value is too big, or memory ran out.
#[derive(Clone, Copy, Debug, PartialEq, Eq, Drop, Error)]
pub enum EncodeFault {
    #[error(transparent)]
    Json(JsonFault),
    #[error(transparent)]
    Build(BuildFault),
}

/// Why a JSON text gives no buffer.
#[derive(Clone, Copy, Debug, PartialEq, Eq, Drop, Error)]
pub enum JsonTextFault {
    /// It isn't JSON.
    #[error("bad JSON")]
    BadJson,
    /// Memory ran out while it was read.
    #[error("out of memory")]
    Memory,
    /// What it means is refused.
    #[error(transparent)]
    Encode(EncodeFault),
}
