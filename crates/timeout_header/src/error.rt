use thiserror::Error;

/// The field is neither absent nor one value of 1 to 10 digits.
#[derive(Clone, Copy, PartialEq, Eq, Debug, Error)]
#[error("the timeout is not one value of 1 to 10 digits")]
pub struct BadTimeout;
