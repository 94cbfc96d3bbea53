//! What the causes come to, as a fact. The function does nothing.
ghost use Rattle.std.specs.Prelude.{◌≡◌, Some};
ghost use Rattle.http_pieces.specs.declared.reply.HttpReply.{HttpReply};
ghost use Rattle.connect_codec.specs.Outcome.{outcome_of};
ghost use Rattle.branch_exchange.specs.declared.exchange_end.ExchangeEnd.TheVariants.{Reply};
ghost use Rattle.branch_causes.specs.Causes.{cause_of_end, cause_of_reply, settled};

/// The cause that is told of a reply is the first of the rules by which it is no answer.
#[tactic(auto, unfolding(connect_codec::specs::Outcome::outcome_of))]
pub fn reply_law()
    ensures { (reply : HttpReply)
        → settled (cause_of_end (Reply reply)) (Some (outcome_of (Some reply))) ≡ cause_of_reply reply }
{}
