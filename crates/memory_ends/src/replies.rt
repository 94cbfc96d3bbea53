ghost use Rattle.std.specs.Prelude.{◌≡◌, [], Some};

use crate::room::make_room;
use connections::{Handed, ReplyQueue};
use gateway_core::Reply;
use std::alloc::Global;
use std::collections::VecDeque;
use std::marker::Model;
use std::sync::Wait;

/// A queue of replies that are there, and none behind them.
#[derive(Drop)]
pub struct MemoryReplies {
    replies: VecDeque<Reply>,
    handed: Vec<Handed>,
}

impl Model for MemoryReplies {
    ghost use Rattle.std.specs.Prelude.{List};
    ghost use Rattle.connections.specs.declared.writing.Handed.{Handed};

    ghost Value = { List Handed };

    ghost view = { λ q. q.handed.items };
}

impl MemoryReplies {
    /// A queue of these replies.
    pub fn new(alloc: Global, replies: VecDeque<Reply>) -> MemoryReplies
        ensures { result ≡ [] }
    {
        MemoryReplies {
            replies,
            handed: Vec::new(alloc),
        }
    }

    /// All that it was asked for, in order.
    pub fn handed(&self) -> &[Handed]
        ensures { result.now ≡ self.now }
    {
        self.handed.as_slice()
    }
}

impl ReplyQueue for MemoryReplies {
    ghost told = { λ handed. Some handed };

    fn next<R: Wait>(&mut self, rt: &R) -> Option<Reply> {
        make_room(rt, &mut self.handed);
        let reply = self.replies.pop_front();
        self.handed.push_reserved(match &reply {
            Some(reply) => Handed::Reply(reply.id()),
            None => Handed::Over,
        });
        reply
    }

    fn close<R: Wait>(&mut self, rt: &R) {
        make_room(rt, &mut self.handed);
        self.handed.push_reserved(Handed::Closing);
    }
}
