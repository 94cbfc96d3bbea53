/// What a branch is asked.
#[derive(Clone, Copy, Debug)]
pub struct BranchAsk<'a> {
    /// The host and the port of the backend.
    pub address: &'a str,
    /// The path of the request.
    pub path: &'a str,
    /// The milliseconds that are left of the call's time, where it has a deadline.
    pub remaining: Option<u64>,
    /// The id of the call, where it has one.
    pub request_id: Option<&'a [u8]>,
    /// The body, byte for byte that of the call.
    pub body: &'a [u8],
    /// Whether its connection is kept once the reply is there. Else the request asks for the close.
    pub keeps: bool,
}
