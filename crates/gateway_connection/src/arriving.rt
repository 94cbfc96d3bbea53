use gateway_replies::{ArrivedCall, Reply};

/// What a request comes to as it comes.
#[derive(Drop)]
pub enum Arriving {
    /// It is answered at once.
    Answered(Reply),
    /// It begins a call.
    Begins(ArrivedCall),
}
