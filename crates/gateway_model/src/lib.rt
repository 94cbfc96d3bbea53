//! What must be believed of the gateway: the definitions that the headline is said in (`specs/`), and the types that
//! they speak of. Of code there are a few one-line functions of those types, and no proof.
#![tactic(auto)]

mod call_event;
mod ending;
mod entry;
mod event;
mod id;
mod record;
mod reply_bytes;
mod run;
mod seen;

pub use call_event::CallEvent;
pub use ending::{EndCause, Ending};
pub use entry::ReplyEntry;
pub use event::Event;
pub use id::{CallId, ConnId};
pub use record::CallRecord;
pub use reply_bytes::ReplyBytes;
pub use run::{RunError, Start};
pub use seen::Seen;
