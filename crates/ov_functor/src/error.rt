//! Why parts are no transaction.
use ov_base::Key;

/// Why parts are no transaction, the first of these that holds.
#[derive(Clone, Copy, Debug, PartialEq, Eq)]
pub enum TxnError {
    /// There is no part.
    Empty,
    /// There are more than 8.
    TooMany,
    /// This key is written twice or got twice.
    SameKey(Key),
}
