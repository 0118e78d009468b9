//! Which text of a job is refused.
ghost use Rattle.std.specs.Prelude.{◌≡◌};
ghost use Rattle.fb_explain_schemas.specs.Refusals.{refusal};

use fb_declare::SchemaTextFault;
use fb_faults::ToolFault;

/// Which of a job's schemas a text is.
#[derive(Clone, Copy, Debug, PartialEq, Eq)]
pub enum Which {
    Only,
    /// The older of two.
    Older,
    /// The newer of two.
    Newer,
}

impl Which {
    /// The job's refusal where this text is refused.
    pub fn refusal(self, fault: SchemaTextFault) -> ToolFault
        ensures { result ≡ refusal self fault }
    {
        match self {
            Which::Only => ToolFault::Schema(fault),
            Which::Older => ToolFault::Older(fault),
            Which::Newer => ToolFault::Newer(fault),
        }
    }
}
