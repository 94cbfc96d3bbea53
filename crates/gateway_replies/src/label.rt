use connect_codec::named_id;
use http_pieces::{Bytes, Request};
use std::alloc::{AllocError, Global};
use std::str;
use std::sync::Arc;

/// So many bytes of a target are kept.
const MOST_TARGET: usize = 200;

/// So many bytes has an id at most.
const MOST_ID: usize = 128;

/// What a log tells of the request that a reply answers. No reply depends on it, so memory that is refused to it costs
/// the log a `null` and nothing else.
#[derive(Drop)]
pub enum RequestLabel {
    /// Nothing: the stream was refused, no id was named, or there was no memory.
    Nothing,
    /// The id of a call, which the call shares.
    Id(Arc<Bytes>),
    /// Of what is no call: its target up to the first `?`, which is so long, and behind it the id that it names.
    Target { text: Bytes, target: usize },
}

impl RequestLabel {
    /// That of a call with this id. It takes no memory.
    pub fn of_call(id: &Option<Arc<Bytes>>) -> RequestLabel {
        match id {
            Some(id) => match Arc::try_clone(id) {
                Ok(id) => RequestLabel::Id(id),
                Err(_) => RequestLabel::Nothing,
            },
            None => RequestLabel::Nothing,
        }
    }

    /// That of a request which is no call, copied into one buffer.
    pub fn of_request(alloc: Global, request: &Request) -> RequestLabel {
        match label_of(alloc, request) {
            Ok(label) => label,
            Err(_) => RequestLabel::Nothing,
        }
    }

    /// The target up to its first `?`, at most 200 bytes of it: of what is no call, if it is a text.
    pub fn target(&self) -> Option<&str> {
        match self {
            RequestLabel::Target { text, target } => {
                str::from_utf8(text.as_slice().get(..*target)?).ok()
            }
            RequestLabel::Id(_) | RequestLabel::Nothing => None,
        }
    }

    /// The id that the request names.
    pub fn id(&self) -> Option<&str> {
        let id = match self {
            RequestLabel::Id(id) => id.as_slice(),
            RequestLabel::Target { text, target } => text.as_slice().get(*target..)?,
            RequestLabel::Nothing => return None,
        };
        if id.is_empty() {
            return None;
        }
        str::from_utf8(id).ok()
    }
}

fn label_of(alloc: Global, request: &Request) -> Result<RequestLabel, AllocError> {
    let target = without_query(request.target());
    let mut text = Bytes::from_vec(Vec::with_capacity(alloc, MOST_TARGET + MOST_ID)?);
    text.extend_from_slice(target)?;
    if let Some(id) = named_id(request) {
        text.extend_from_slice(id)?;
    }
    Ok(RequestLabel::Target {
        text,
        target: target.len(),
    })
}

/// The target up to its first `?`, at most 200 bytes of it.
fn without_query(target: &[u8]) -> &[u8] {
    let end = target.iter().position(|byte| *byte == b'?');
    let end = end.unwrap_or(target.len()).min(MOST_TARGET);
    target.get(..end).unwrap_or(target)
}
