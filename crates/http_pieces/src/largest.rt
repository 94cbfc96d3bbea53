/// The greatest number that 10 decimal digits write, as of `Content-Length` and `Connect-Timeout-Ms`.
pub const MAX_DECIMAL: u64 = 9_999_999_999;
