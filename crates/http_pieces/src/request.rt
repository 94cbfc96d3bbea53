ghost use Rattle.std.specs.Prelude.{◌≡◌};
ghost use Rattle.http_pieces.specs.Fields.{IsFieldOf, lists_option, values_of};
ghost use Rattle.http_pieces.specs.Request.{closes};

use crate::field::Field;
use crate::fields::Fields;
use crate::head::Head;
use crate::lookup::{find_field, lists_option};
use crate::version::Version;
use std::marker::Model;

/// A whole request. It keeps the bytes of its head and body, and where the parts are.
#[derive(Debug, Drop)]
pub struct Request {
    pub(crate) bytes: Vec<u8>,
    pub(crate) head: Head,
    /// The place of the body in `bytes`.
    pub(crate) body_at: usize,
    /// The request's place among those of its connection.
    pub(crate) number: u64,
}

impl Model for Request {
    ghost use Rattle.std.specs.Prelude.{◌≤◌, length};
    ghost use Rattle.http_pieces.specs.Request.{HttpRequest};
    ghost use Rattle.http_pieces.specs.Layout.{IsHeadWithin, request_of};

    ghost Value = { HttpRequest };

    ghost view = { λ r. request_of r.bytes.items r.head r.body_at r.number };

    ghost invariant = { λ r. IsHeadWithin (length r.bytes.items) r.head × (r.body_at ≤ length r.bytes.items) };
}

impl Request {
    /// The method, as the request line has it (RFC 9112, section 3.1).
    pub fn method(&self) -> &[u8]
        ensures { result.now ≡ self.now.method }
    {
        self.head.method.of(&self.bytes)
    }

    /// The request target, as the request line has it (RFC 9112, section 3.2).
    pub fn target(&self) -> &[u8]
        ensures { result.now ≡ self.now.target }
    {
        self.head.target.of(&self.bytes)
    }

    /// The version of HTTP.
    pub fn version(&self) -> Version
        ensures { result ≡ self.now.version }
    {
        self.head.version
    }

    /// What the head says under a field name, which compares without case.
    pub fn field(&self, name: &[u8]) -> Field<'_>
        ensures { IsFieldOf (values_of name.now self.now.fields) result }
    {
        find_field(&self.bytes, &self.head.headers, name)
    }

    /// The names and values of the fields, in the order of the head: 64 at most.
    pub fn fields(&self) -> Fields<'_>
        ensures { result ≡ self.now.fields }
    {
        Fields::new(&self.bytes, &self.head.headers)
    }

    /// Whether one of its `Connection` fields has the option of that name, which compares without case (RFC 9110,
    /// section 7.6.1).
    pub fn lists_option(&self, name: &[u8]) -> bool
        ensures { result ≡ lists_option name.now self.now.fields }
    {
        lists_option(&self.bytes, &self.head.headers, name)
    }

    /// The body: as many bytes as `Content-Length` says, or none without the field.
    pub fn body(&self) -> &[u8]
        ensures { result.now ≡ self.now.body }
    {
        &self.bytes[self.body_at..]
    }

    /// Whether no request is read after this one: it is of HTTP/1.0, a `Connection` field of it has
    /// the option `close`, or it is the 100th of its connection.
    pub fn closes(&self) -> bool
        ensures { result ≡ closes self.now }
    {
        self.version() == Version::V10 || self.number == 99 || self.lists_option(b"close")
    }
}
