use crate::complaint::Complaint;
use serde_json::Value;

const MOST_BRANCH: u64 = 4_294_967_295;

const LEAST_STATUS: u64 = 200;

const MOST_STATUS: u64 = 999;

/// The form of an event of a script, by its first word.
#[derive(Clone, Copy, PartialEq, Eq, Debug)]
pub(crate) enum Form {
    Open,
    Piece,
    HangUp,
    Moment,
    Result,
    Lost,
    Drain,
    Close,
}

/// What an element of an event is.
#[derive(Clone, Copy, PartialEq, Eq, Debug)]
pub(crate) enum Kind {
    /// The first word, which told the form.
    Word,
    /// The number of a connection or of a request, or a moment.
    Number,
    Branch,
    Status,
    Type,
    Text,
}

impl Form {
    /// The form that a word tells.
    pub(crate) fn of_word(word: &str) -> Option<Form> {
        match word {
            "open" => Some(Form::Open),
            "piece" => Some(Form::Piece),
            "hangup" => Some(Form::HangUp),
            "moment" => Some(Form::Moment),
            "result" => Some(Form::Result),
            "lost" => Some(Form::Lost),
            "drain" => Some(Form::Drain),
            "close" => Some(Form::Close),
            _ => None,
        }
    }

    /// As it is written.
    pub(crate) fn text(&self) -> &'static str {
        match self {
            Form::Open => "[\"open\"]",
            Form::Piece => "[\"piece\",c,text]",
            Form::HangUp => "[\"hangup\",c]",
            Form::Moment => "[\"moment\",m]",
            Form::Result => "[\"result\",c,k,branch,status,type,body]",
            Form::Lost => "[\"lost\",c,k,branch]",
            Form::Drain => "[\"drain\"]",
            Form::Close => "[\"close\",c]",
        }
    }

    /// How many elements it has.
    pub(crate) fn len(&self) -> usize {
        match self {
            Form::Open | Form::Drain => 1,
            Form::HangUp | Form::Moment | Form::Close => 2,
            Form::Piece => 3,
            Form::Lost => 4,
            Form::Result => 7,
        }
    }

    /// What the element at that place is, and how it is named.
    pub(crate) fn element(&self, place: usize) -> (Kind, &'static str) {
        match (self, place) {
            (_, 0) => (Kind::Word, ""),
            (Form::Moment, _) => (Kind::Number, "m"),
            (_, 1) => (Kind::Number, "c"),
            (Form::Piece, _) => (Kind::Text, "text"),
            (_, 2) => (Kind::Number, "k"),
            (_, 3) => (Kind::Branch, "branch"),
            (_, 4) => (Kind::Status, "status"),
            (_, 5) => (Kind::Type, "type"),
            _ => (Kind::Text, "body"),
        }
    }
}

impl Kind {
    /// Whether a value is one of this kind.
    pub(crate) fn fits(&self, value: &Value) -> bool {
        match self {
            Kind::Word => true,
            Kind::Number => value.as_u64().is_some(),
            Kind::Branch => value.as_u64().is_some_and(|n| n <= MOST_BRANCH),
            Kind::Status => value
                .as_u64()
                .is_some_and(|n| LEAST_STATUS <= n && n <= MOST_STATUS),
            Kind::Type => value.is_null() || value.is_string(),
            Kind::Text => value.is_string(),
        }
    }

    /// What to say of a value that is none.
    pub(crate) fn complaint(&self) -> Complaint {
        match self {
            Kind::Word => Complaint::UnknownWord,
            Kind::Number => Complaint::NotANumber,
            Kind::Branch => Complaint::NotABranch,
            Kind::Status => Complaint::NotAStatus,
            Kind::Type => Complaint::NotAType,
            Kind::Text => Complaint::NotAText,
        }
    }
}
