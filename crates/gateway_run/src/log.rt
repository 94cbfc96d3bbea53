ghost use Rattle.std.specs.Prelude.{◌≡◌, ◌++◌, ◌∷◌, OnOk, [], false};
ghost use Rattle.gateway_theory.specs.Gateway.{untaken_of};
ghost use Rattle.gateway_run.specs.Log.{Collects, StartsAll, TookReplies, log_value};
ghost use Rattle.gateway_model.specs.Run.{bytes_of};

use gateway_core::{ConnId, Core, Job, ReplyHook};
use gateway_model::Start;
use http_pieces::Bytes;
use std::alloc::{AllocError, Global};
use std::marker::Model;

/// What a run takes down as it goes.
#[derive(Drop)]
pub(crate) struct Log {
    alloc: Global,
    /// The places of the openings that succeeded.
    pub(crate) opened: Vec<u64>,
    /// The bytes that were queued for each connection and are taken.
    pub(crate) queued: Vec<Bytes>,
    /// Whether each connection was broken as it was looked at last.
    pub(crate) broke: Vec<bool>,
    pub(crate) starts: Vec<Start>,
    /// The jobs that were taken, one for each start.
    pub(crate) jobs: Vec<Job>,
}

impl Model for Log {
    ghost use Rattle.std.specs.Prelude.{◌≡◌, length, map};
    ghost use Rattle.gateway_run.specs.Log.{LogValue, log_value};

    ghost Value = { LogValue };

    ghost view = { λ l. log_value l.opened.items l.queued.items l.broke.items l.starts.items (map (λ j. j.job) l.jobs.items) };

    ghost invariant = { λ l. length l.broke.items ≡ length l.queued.items };
}

impl Log {
    /// Nothing was taken down yet.
    pub(crate) fn new(alloc: Global) -> Log
        ensures { result ≡ log_value [] [] [] [] [] }
    {
        Log {
            alloc,
            opened: Vec::new(alloc),
            queued: Vec::new(alloc),
            broke: Vec::new(alloc),
            starts: Vec::new(alloc),
            jobs: Vec::new(alloc),
        }
    }

    /// Takes what is queued for the connection of that number, if it was opened, and whether it is broken.
    pub(crate) fn collect<H: ReplyHook + Drop>(
        &mut self,
        core: &mut Core<H>,
        number: u64,
    ) -> Result<(), AllocError>
        ensures { OnOk result (Collects number core.old core.new self.old self.new) }
    {
        let index = number as usize;
        if index >= self.queued.len() {
            return Ok(());
        }
        let broken = core.is_broken(ConnId::of(number));
        take_replies(core, ConnId::of(number), &mut self.queued[index])?;
        self.broke[index] = self.broke[index] || broken;
        Ok(())
    }

    /// Makes room for a connection that was opened at the event of this place.
    pub(crate) fn open(&mut self, place: u64) -> Result<(), AllocError>
        ensures { OnOk result (self.new
            ≡ log_value (self.old.opened ++ place ∷ []) (self.old.queued ++ [] ∷ []) (self.old.broke ++ false ∷ []) self.old.starts self.old.jobs) }
    {
        self.opened.reserve(1)?;
        self.queued.reserve(1)?;
        self.broke.reserve(1)?;
        self.opened.push_reserved(place);
        self.queued.push_reserved(Bytes::new(self.alloc));
        self.broke.push_reserved(false);
        Ok(())
    }

    /// Takes the jobs that started at the event of this place.
    pub(crate) fn start<H: ReplyHook + Drop>(
        &mut self,
        core: &mut Core<H>,
        event: u64,
    ) -> Result<(), AllocError>
        ensures { OnOk result (StartsAll event core.old core.new self.old self.new) }
    {
        while let Some(job) = core.take_job() {
            self.starts.push(Start {
                event,
                conn: job.call().conn.number(),
                request: job.call().request,
                branch: job.branch(),
            })?;
            self.jobs.push(job)?;
        }
        Ok(())
    }
}

/// Takes the replies of a connection, behind the bytes.
fn take_replies<H: ReplyHook + Drop>(
    core: &mut Core<H>,
    conn: ConnId,
    bytes: &mut Bytes,
) -> Result<(), AllocError>
    ensures took { OnOk result (TookReplies conn (untaken_of conn core.old) core.old core.new) }
    ensures bytes { OnOk result (bytes.new ≡ bytes.old ++ bytes_of (untaken_of conn core.old)) }
{
    while let Some(reply) = core.take_reply(conn) {
        bytes.extend_from_slice(reply.bytes())?;
    }
    Ok(())
}
