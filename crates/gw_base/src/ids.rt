//! Numbers of transactions and of contexts.

/// A TransactionID (RFC 3525, section 8.1.1): any 32-bit number that the sender chose.
#[derive(Clone, Copy, PartialEq, Eq, PartialOrd, Ord)]
pub struct TxId(pub u32);

/// A ContextID that stands for one context (RFC 3525, section 8.1.2). Numbers of a gateway run from 1; one that arrives
/// may be any 32-bit number.
#[derive(Clone, Copy, PartialEq, Eq, PartialOrd, Ord)]
pub struct CtxNum(pub u32);
