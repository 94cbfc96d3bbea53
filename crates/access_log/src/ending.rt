ghost use Rattle.std.specs.Prelude.{◌≡◌};
ghost use Rattle.access_log.specs.Line.{ended_name};

/// Why a reply is what it is: what ended its call, or why there was none.
#[derive(Clone, Copy, PartialEq, Eq, Debug)]
pub enum Ended {
    /// All branches answered.
    Answers,
    /// A branch failed.
    Branch,
    /// The time of a branch had passed.
    BranchDeadline,
    /// The call's time had passed.
    Deadline,
    /// The client was gone.
    HangUp,
    /// The gateway was drained.
    Drain,
    /// The request is no call.
    NoCall,
    /// Too many calls of its connection were undecided.
    OneTooMany,
    /// The stream can't be read as requests.
    Refusal,
}

impl Ended {
    /// As the log and the figures name it.
    pub fn name(self) -> &'static str
        ensures { result.now ≡ ended_name self }
    {
        match self {
            Ended::Answers => "answers",
            Ended::Branch => "branch",
            Ended::BranchDeadline => "branch deadline",
            Ended::Deadline => "deadline",
            Ended::HangUp => "hang-up",
            Ended::Drain => "drain",
            Ended::NoCall => "no call",
            Ended::OneTooMany => "one too many",
            Ended::Refusal => "refusal",
        }
    }
}
