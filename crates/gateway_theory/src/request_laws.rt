//! What is known of requests.
ghost use Rattle.gateway_theory.specs.RequestLaws.{RequestLaws};

use http_pieces::laws::{cut_law, requests_law};

/// What the laws of requests say. It does nothing.
pub fn request_laws()
    ensures { RequestLaws }
{
    cut_law();
    requests_law();
}
