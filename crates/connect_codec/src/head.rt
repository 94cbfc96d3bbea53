ghost use Rattle.std.specs.Prelude.{◌≡◌, ◌++◌, ℕ, decimal, codes, IfOk, OnOk};
ghost use Rattle.std.specs.List.{flat_map};
ghost use Rattle.connect_codec.specs.Message.{crlf, field_line};
ghost use Rattle.connect_codec.specs.Passed.{fields_passed};
ghost use Rattle.connect_codec.specs.Reply.{phrase_of, status_line};
ghost use Rattle.connect_codec.specs.BranchRequest.{request_line};

use crate::passed::Passed;
use http_pieces::Bytes;
use itoa::Buffer;
use std::alloc::{AllocError, Global};
use std::marker::Model;

/// The head of a message, as far as it is written. Contracts see its bytes.
#[derive(Drop)]
pub(crate) struct Head {
    bytes: Vec<u8>,
}

impl Model for Head {
    ghost use Rattle.std.specs.Prelude.{ℕ, List};

    ghost Value = { List ℕ };

    ghost view = { λ h. h.bytes.items };
}

impl Head {
    /// The status line of a reply.
    pub(crate) fn of_reply(alloc: Global, status: u16) -> Result<Head, AllocError>
        ensures { IfOk result (λ head. head ≡ status_line status ++ crlf) }
    {
        let phrase = phrase_of(status);
        let line = format!(in alloc; "HTTP/1.1 {status} {phrase}\r\n")?;
        Head::of_line(alloc, line.as_str())
    }

    /// The request line of a call.
    pub(crate) fn of_call(alloc: Global, path: &str) -> Result<Head, AllocError>
        ensures { IfOk result (λ head. head ≡ request_line path.now ++ crlf) }
    {
        let line = format!(in alloc; "POST {path} HTTP/1.1\r\n")?;
        Head::of_line(alloc, line.as_str())
    }

    fn of_line(alloc: Global, line: &str) -> Result<Head, AllocError>
        ensures { IfOk result (λ head. head ≡ line.now) }
    {
        let bytes = Vec::from_slice(alloc, line.as_bytes())?;
        Ok(Head { bytes })
    }

    /// Adds a field.
    pub(crate) fn field(&mut self, name: &str, value: &[u8]) -> Result<(), AllocError>
        ensures { OnOk result (self.new ≡ self.old ++ field_line (name.now, value.now)) }
    {
        self.bytes.extend_from_slice(name.as_bytes())?;
        self.bytes.extend_from_slice(b": ")?;
        self.bytes.extend_from_slice(value)?;
        self.bytes.extend_from_slice(b"\r\n")
    }

    /// Adds the fields that are passed on.
    pub(crate) fn pass_on(&mut self, passed: &Passed<'_>) -> Result<(), AllocError>
        ensures { OnOk result (self.new ≡ self.old ++ flat_map field_line (fields_passed passed.now)) }
    {
        for (name, value) in passed.request.fields() {
            if let Some(own) = passed.name_for(name) {
                self.field(own, value)?;
            }
        }
        Ok(())
    }

    /// Adds the field that gives the length of the body.
    pub(crate) fn length(&mut self, length: usize) -> Result<(), AllocError>
        ensures { OnOk result
            (self.new ≡ self.old ++ field_line (codes "Content-Length", decimal length)) }
    {
        self.field("Content-Length", Buffer::new().format(length).as_bytes())
    }

    /// The whole message: the head, an empty line and the body.
    pub(crate) fn end(self, body: &[u8]) -> Result<Bytes, AllocError>
        ensures { IfOk result (λ bytes. bytes ≡ self ++ crlf ++ body.now) }
    {
        let Head { mut bytes } = self;
        bytes.extend_from_slice(b"\r\n")?;
        bytes.extend_from_slice(body)?;
        Ok(Bytes::from_vec(bytes))
    }
}

/// The reason phrase of a status; empty for one that no reply has.
#[tactic(auto, unfolding(crate::specs::Reply::phrase_of))]
fn phrase_of(status: u16) -> &'static str
    ensures { result.now ≡ phrase_of status }
{
    match status {
        200 => "OK",
        400 => "Bad Request",
        401 => "Unauthorized",
        403 => "Forbidden",
        404 => "Not Found",
        405 => "Method Not Allowed",
        409 => "Conflict",
        411 => "Length Required",
        415 => "Unsupported Media Type",
        429 => "Too Many Requests",
        431 => "Request Header Fields Too Large",
        499 => "Client Closed Request",
        500 => "Internal Server Error",
        501 => "Not Implemented",
        503 => "Service Unavailable",
        504 => "Gateway Timeout",
        _ => "",
    }
}
