// B: base Result-Codes, by RFC 3588's names.
pub const SUCCESS: u32 = 2001;

pub const COMMAND_UNSUPPORTED: u32 = 3001;

pub const APPLICATION_UNSUPPORTED: u32 = 3007;

pub const INVALID_HDR_BITS: u32 = 3008;

pub const INVALID_AVP_BITS: u32 = 3009;

pub const AVP_UNSUPPORTED: u32 = 5001;

pub const AUTHORIZATION_REJECTED: u32 = 5003;

pub const INVALID_AVP_VALUE: u32 = 5004;

pub const MISSING_AVP: u32 = 5005;

pub const AVP_OCCURS_TOO_MANY_TIMES: u32 = 5009;

pub const UNSUPPORTED_VERSION: u32 = 5011;

pub const UNABLE_TO_COMPLY: u32 = 5012;

pub const INVALID_AVP_LENGTH: u32 = 5014;
