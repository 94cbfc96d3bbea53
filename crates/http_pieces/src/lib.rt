//! HTTP/1.1 requests and replies, cut from a stream of bytes that comes in pieces.
//!
//! A `Reader` is handed the pieces of one connection and gives the requests in them, whatever the
//! places at which the pieces were cut (RFC 9112, sections 2, 3, 5 and 6). A `ReplyReader` gives the
//! one reply of a backend likewise (RFC 9112, sections 2 and 4 to 6).
#![tactic(auto)]

mod blanks;
mod byte_string;
mod case;
mod chunk_parts;
mod chunks;
mod decimal;
mod decoding;
mod field;
mod fields;
mod framing;
mod head;
mod largest;
pub mod laws;
mod looked;
mod lookup;
mod message;
mod names;
mod phase;
mod reader;
mod refusal;
mod reply;
mod reply_fault;
mod reply_head;
mod reply_push;
mod reply_reader;
mod reply_state;
mod request;
mod scan;
mod state;
mod text;
mod version;

pub use blanks::trim_blanks;
pub use byte_string::Bytes;
pub use case::same_without_case;
pub use decimal::read_decimal;
pub use field::Field;
pub use fields::Fields;
pub use framing::Framing;
pub use largest::MAX_DECIMAL;
pub use names::same_name;
pub use reader::Reader;
pub use refusal::Refusal;
pub use reply::HttpReply;
pub use reply_fault::ReplyFault;
pub use reply_reader::ReplyReader;
pub use reply_state::ReplyState;
pub use request::Request;
pub use state::State;
pub use text::Text;
pub use version::Version;
