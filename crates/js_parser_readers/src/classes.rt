//! What the next tokens begin: small classes of their many kinds.

pub mod arrows;
pub mod expressions;
pub mod lists;
pub mod objects;
pub mod statements;
