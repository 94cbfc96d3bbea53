ghost use Rattle.std.specs.Prelude.{◌≡◌};
ghost use Rattle.std.specs.Cmp.{partial_equiv_from_equiv};
ghost use Rattle.error_document.specs.Details.{same_detail, same_detail-equiv};

use http_pieces::Text;
use std::alloc::AllocError;

/// A detail of an error: a message that its server wrote for the client (Connect protocol, error
/// details). It is carried as it came, and never decoded.
#[derive(Debug, Drop)]
pub struct Detail {
    /// The name of the message's type, as `google.rpc.RetryInfo`.
    pub type_name: Text,
    /// The message, in base64.
    pub value: Text,
}

impl Clone for Detail {
    ghost is_clone = { λ detail copy. copy ≡ detail };

    fn clone(&self) -> Result<Self, AllocError> {
        Ok(Detail {
            type_name: self.type_name.clone()?,
            value: self.value.clone()?,
        })
    }
}

impl PartialEq for Detail {
    ghost eq = { same_detail };

    ghost laws = { partial_equiv_from_equiv same_detail-equiv };

    fn eq(&self, other: &Self) -> bool {
        self.type_name == other.type_name && self.value == other.value
    }
}

impl Eq for Detail {
    ghost laws = { same_detail-equiv };
}
