/// What is wrong with a file, or will not work as it seems to be meant. All texts of lines stand here.
#[derive(Clone, Copy, PartialEq, Eq, Debug)]
pub(crate) enum Complaint {
    // of the file
    NotThere,
    NotOpened,
    // of it as a text
    TooLong,
    Utf16,
    ByteOrderMark,
    NotUtf8,
    Empty,
    CutOff,
    CommaBeforeEnd,
    Comment,
    SingleQuotes,
    LeadingZero,
    Yaml,
    SecondValue,
    NoComma,
    NoColon,
    NoKey,
    NoValue,
    EndsArray,
    EndsObject,
    StrayColon,
    TooDeep,
    NumberTooLarge,
    NoText,
    NoToken,
    // of its shape
    NotPlans,
    NotAScript,
    NotAnArray,
    NotAnObject,
    Missing,
    NotAText,
    NotALimit,
    NotATimeout,
    NotABranchTimeout,
    NotTexts,
    // of a plan
    BadPath,
    BadAddress,
    TooManyFields,
    BadFieldName,
    FieldKeptBack,
    RepeatedField,
    BadName,
    NoBranch,
    TooManyBranches,
    ZeroLimit,
    RepeatedName,
    RepeatedPath,
    TooManyPlans,
    // of an event
    NoWord,
    UnknownWord,
    WrongCount,
    NotANumber,
    NotABranch,
    NotAStatus,
    NotAType,
    // what is taken and will not work
    MisspelledKey,
    IgnoredKey,
    RepeatedKey,
    PathOfPattern,
    AddressWithUser,
    SeveralAddresses,
    NoTimeout,
    ZeroTimeout,
    AddressWithSlashes,
    NoHost,
    HostPlaceholder,
    HostWildcard,
    HostUnbracketed,
    HostEmptyLabel,
    HostNoIpv4,
    NoSuchPort,
    OwnAddress,
    LimitAboveBranches,
    LateTimeout,
    BareLf,
    // of what the places above do not tell
    Refused,
}

impl Complaint {
    /// What the line says behind the place.
    pub(crate) fn text(&self) -> &'static str {
        match self {
            Complaint::NotThere => "there is no such file",
            Complaint::NotOpened => "the file can't be opened",
            Complaint::TooLong => "a file is at most 16,777,216 bytes long",
            Complaint::Utf16 => "this looks like UTF-16: save the file as UTF-8",
            Complaint::ByteOrderMark => "a byte order mark: save the file as UTF-8 without one",
            Complaint::NotUtf8 => "here it is no UTF-8",
            Complaint::Empty => "the file is empty",
            Complaint::CutOff => "the text ends before its JSON does",
            Complaint::CommaBeforeEnd =>
                "behind the last comma nothing follows: take the comma out",
            Complaint::Comment => {
                "JSON has no comments: put it into a key that begins with _, as \"_note\""
            }
            Complaint::SingleQuotes => "keys and texts stand in double quotes",
            Complaint::LeadingZero => "a number has no 0 before its first digit",
            Complaint::Yaml => "this looks like YAML: the file is to be JSON",
            Complaint::SecondValue => "the JSON has ended before this: a file holds one value",
            Complaint::NoComma => "a comma is missing before this",
            Complaint::NoColon => "a colon is missing before this",
            Complaint::NoKey => "a key in double quotes belongs here",
            Complaint::NoValue => "a value is missing before this",
            Complaint::EndsArray => "an array is open here, and ends with ]",
            Complaint::EndsObject => "an object is open here, and ends with }",
            Complaint::StrayColon => {
                "a colon stands in an object alone, between a key and its value"
            }
            Complaint::TooDeep => "arrays and objects nest at most 127 deep",
            Complaint::NumberTooLarge => "this number is too large",
            Complaint::NoText => {
                "this text does not end, or has a tab, the end of a line or a wrong \\ in it"
            }
            Complaint::NoToken =>
                "no text in double quotes, no number, and not true, false or null",
            Complaint::NotPlans => "a plan file is an array of plans",
            Complaint::NotAScript => "a script is an object with the keys plans and events",
            Complaint::NotAnArray => "an array belongs here",
            Complaint::NotAnObject => "an object belongs here",
            Complaint::Missing => "the key is missing",
            Complaint::NotAText => "a text belongs here",
            Complaint::NotALimit => "a whole number from 1 to 4,294,967,295, in digits alone",
            Complaint::NotATimeout => {
                "a whole number of milliseconds from 0 to 9,999,999,999, in digits alone; leave the key out for no timeout"
            }
            Complaint::NotABranchTimeout => {
                "a whole number of milliseconds from 1 to 9,999,999,999, in digits alone; leave the key out for none"
            }
            Complaint::NotTexts =>
                "an array of texts belongs here; leave the key out to pass nothing on",
            Complaint::BadPath => {
                "a path begins with /, has bytes from ! to ~ but no ? and no #, and is at most 1,024 bytes long"
            }
            Complaint::BadAddress => {
                "a host and a port, as 127.0.0.1:9001: at most 255 bytes from ! to ~, at the end : and 1 to 5 digits"
            }
            Complaint::TooManyFields => "a branch passes on at most 16 fields",
            Complaint::BadFieldName => {
                "a field's name: 1 to 64 letters, digits and signs of !#$%&'*+-.^_`|~"
            }
            Complaint::FieldKeptBack => {
                "not passed on: the gateway writes it, or it belongs to one connection or message"
            }
            Complaint::RepeatedField => {
                "an earlier name here is the same to a backend, which may take _ for - and has no case"
            }
            Complaint::BadName => {
                "a letter from a to z, then letters from a to z, digits and _, at most 64 bytes"
            }
            Complaint::NoBranch => "a plan has at least one branch",
            Complaint::TooManyBranches => "a plan has at most 16 branches",
            Complaint::ZeroLimit => "at least 1, or no branch would ever start",
            Complaint::RepeatedName => "an earlier branch of the plan has this name",
            Complaint::RepeatedPath => "an earlier plan has this path",
            Complaint::TooManyPlans => "a file has at most 256 plans",
            Complaint::NoWord | Complaint::UnknownWord => {
                "an event begins with open, piece, hangup, moment, result, lost, drain or close"
            }
            Complaint::WrongCount => "it has more or fewer elements than that",
            Complaint::NotANumber => {
                "a whole number from 0 to 18,446,744,073,709,551,615, in digits alone"
            }
            Complaint::NotABranch => "a whole number from 0 to 4,294,967,295, in digits alone",
            Complaint::NotAStatus => "a whole number from 200 to 999, in digits alone",
            Complaint::NotAType => "a text belongs here, or null for no content type",
            Complaint::MisspelledKey => "no such key, so it is ignored; there is",
            Complaint::IgnoredKey => {
                "no such key here, so it is ignored; a note's key may begin with _"
            }
            Complaint::RepeatedKey => "the object has this key twice: the last one counts",
            Complaint::PathOfPattern => {
                "no patterns: this path alone is served, with each { and * as it stands"
            }
            Complaint::AddressWithUser => "a host and a port alone, with no user before an @",
            Complaint::SeveralAddresses => "one address: write a branch for each, or name a proxy",
            Complaint::NoTimeout => "no timeout_ms: its calls wait as long as a backend lets them",
            Complaint::ZeroTimeout => {
                "each call ends as it arrives, with 504; leave the key out for no timeout"
            }
            Complaint::AddressWithSlashes => "a host and a port alone, with no scheme and no //",
            Complaint::NoHost => "there is no host before the :",
            Complaint::HostPlaceholder => {
                "a placeholder that nothing has filled in: write the host itself"
            }
            Complaint::HostWildcard => {
                "no wildcards: write a branch for each host, or name a proxy"
            }
            Complaint::HostUnbracketed => {
                "a host has no : in it, but for an IPv6 address in brackets, as [::1]:9001"
            }
            Complaint::HostEmptyLabel => {
                "a part of the host is empty: take out the . before it or behind it"
            }
            Complaint::HostNoIpv4 => {
                "no IPv4 address: that is four numbers from 0 to 255, with no 0 before another digit"
            }
            Complaint::NoSuchPort => "there are ports from 1 to 65535",
            Complaint::OwnAddress => "here the gateway itself listens",
            Complaint::LimitAboveBranches => "more than the plan has branches",
            Complaint::LateTimeout =>
                "not below that of the plan, so the call always expires first",
            Complaint::BareLf =>
                "a line of a head ends in CR LF (\\r\\n), and one here in LF alone",
            Complaint::Refused => "the file is refused",
        }
    }
}
