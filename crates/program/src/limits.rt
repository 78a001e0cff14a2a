//! Limits on the size of a program.

/// The most contracts of a program.
pub const MOST_CONTRACTS: usize = 256;
/// The most states of a program, including unnamed ones.
pub const MOST_STATES: usize = 500_000;
/// The most parameters of a message.
pub const MOST_PARAMETERS: usize = 8;
/// The most owning fields of a struct.
pub const MOST_FIELDS: usize = 8;
/// The most variables of the exchange heap that a method may have.
pub const MOST_VARIABLES: usize = 1000;
/// The most methods of a program.
pub const MOST_METHODS: usize = 4096;
