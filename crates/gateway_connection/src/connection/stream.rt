//! The stream of a connection.
ghost use Rattle.std.specs.Prelude.{◌≡◌, [], IfErr, IfOk, false, true};
ghost use Rattle.http_pieces.specs.Reader.{is_over};
ghost use Rattle.gateway_theory.specs.Held.{HangsUp, HasBrought, hears, hung_held};
ghost use Rattle.gateway_connection.specs.Comes.{Feeds, ReadsAll, ReadsNone};
ghost use Rattle.gateway_connection.specs.Lent.{LeavesRest, MayStep};
ghost use Rattle.gateway_connection.specs.Linked.{none_over};
ghost use Rattle.gateway_connection.specs.OwnContexts.{IsTied};

use crate::connection::Connection;
use crate::shared::Shared;
use gateway_replies::ReplyHook;
use gateway_theory::{StepFault, Trigger};

impl Connection {
    /// Takes bytes of its stream, at most up to the end of a request, and answers how many.
    pub fn feed<H: ReplyHook + Drop>(
        &mut self,
        shared: &mut Shared<H>,
        bytes: &[u8],
    ) -> Result<usize, StepFault>
        requires may { MayStep none_over self.old shared.old }
        requires brought { hears self.old ≡ true → HasBrought self.old }
        ensures takes { Feeds bytes.now result self.old self.new shared.old shared.new }
        ensures tied { IsTied none_over self.new shared.new.contexts }
    {
        if !self.is_listening() {
            return Err(StepFault::Gone);
        }
        if self.is_over() {
            return Ok(bytes.len());
        }
        match self.read(shared, bytes) {
            Ok(taken) => Ok(taken),
            Err(fault) => {
                self.break_now(shared);
                Err(fault)
            }
        }
    }

    /// Its stream is read, and the request comes that the bytes make whole, or the refusal that it has come to.
    fn read<H: ReplyHook + Drop>(
        &mut self,
        shared: &mut Shared<H>,
        bytes: &[u8],
    ) -> Result<usize, StepFault>
        requires may { MayStep none_over self.old shared.old }
        requires on { hears self.old ≡ true }
        requires brought { HasBrought self.old }
        requires going { is_over self.old.reader.reading ≡ false }
        ensures ok { IfOk result (λ n. ReadsAll bytes.now n self.old self.new shared.old shared.new) }
        ensures err { IfErr result (λ fault. ReadsNone bytes.now fault self.old self.new shared.old shared.new) }
    {
        let taken = self.reader.push(bytes)?;
        let request = self.reader.take();
        self.take_in(shared, request)?;
        Ok(taken)
    }

    /// Its peer hung up: its calls end, and no more of its stream is read. The contexts are told of it.
    pub fn hang_up<H: ReplyHook + Drop>(&mut self, shared: &mut Shared<H>) -> Result<(), StepFault>
        requires may { MayStep none_over self.old shared.old }
        ensures hangs { HangsUp self.old self.new result }
        ensures tied { IsTied none_over self.new shared.new.contexts }
        ensures rest { LeavesRest [] self.old self.new shared.old shared.new }
        ensures begun { shared.new.begun ≡ shared.old.begun }
    {
        if !self.is_listening() {
            return Err(StepFault::Gone);
        }
        let trigger = Trigger::HungUp(self.number);
        shared.contexts.tell(&trigger);
        self.hung_up = true;
        if self.end_calls(shared, &trigger) {
            return Err(StepFault::Memory);
        }
        Ok(())
    }
}
