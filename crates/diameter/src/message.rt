// RFC 3588's message header: where its fields begin, and its flags.
pub const VERSION_AT: usize = 0;

pub const LENGTH_AT: usize = 1;

pub const FLAGS_AT: usize = 4;

pub const COMMAND_AT: usize = 5;

pub const APPLICATION_AT: usize = 8;

// Where the AVPs begin.
pub const BODY: usize = 20;

// The only version there is.
pub const VERSION: u8 = 1;

// A request; one that may be passed on; an error.
pub const R_BIT: u8 = 128;

pub const P_BIT: u8 = 64;

pub const E_BIT: u8 = 32;
