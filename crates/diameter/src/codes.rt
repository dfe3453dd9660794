// The codes of AVPs by the standards' names, the vendor and the applications: readers and writers have them from here.

// 3GPP: the vendor of the AVPs with V, and of an Experimental-Result.
pub const VENDOR: u32 = 10415;

// The applications: Cx, and Sh.
pub const CX: u32 = 16777216;

pub const SH: u32 = 16777217;

// RFC 3588, without V.
pub const USER_NAME: u32 = 1;

pub const AUTH_APPLICATION_ID: u32 = 258;

pub const VENDOR_SPECIFIC_APPLICATION_ID: u32 = 260;

pub const SESSION_ID: u32 = 263;

pub const ORIGIN_HOST: u32 = 264;

pub const VENDOR_ID: u32 = 266;

pub const RESULT_CODE: u32 = 268;

pub const AUTH_SESSION_STATE: u32 = 277;

pub const FAILED_AVP: u32 = 279;

pub const ROUTE_RECORD: u32 = 282;

pub const DESTINATION_REALM: u32 = 283;

pub const PROXY_INFO: u32 = 284;

pub const DESTINATION_HOST: u32 = 293;

pub const ORIGIN_REALM: u32 = 296;

pub const EXPERIMENTAL_RESULT: u32 = 297;

pub const EXPERIMENTAL_RESULT_CODE: u32 = 298;

// 3GPP TS 29.229, with V.
pub const VISITED_NETWORK_IDENTIFIER: u32 = 600;

pub const PUBLIC_IDENTITY: u32 = 601;

pub const SERVER_NAME: u32 = 602;

pub const SERVER_CAPABILITIES: u32 = 603;

pub const MANDATORY_CAPABILITY: u32 = 604;

pub const OPTIONAL_CAPABILITY: u32 = 605;

pub const USER_DATA: u32 = 606;

pub const SIP_NUMBER_AUTH_ITEMS: u32 = 607;

pub const SIP_AUTHENTICATION_SCHEME: u32 = 608;

pub const SIP_AUTHENTICATE: u32 = 609;

pub const SIP_AUTHORIZATION: u32 = 610;

pub const SIP_AUTH_DATA_ITEM: u32 = 612;

pub const SIP_ITEM_NUMBER: u32 = 613;

pub const SERVER_ASSIGNMENT_TYPE: u32 = 614;

pub const USER_AUTHORIZATION_TYPE: u32 = 623;

pub const USER_DATA_ALREADY_AVAILABLE: u32 = 624;

pub const CONFIDENTIALITY_KEY: u32 = 625;

pub const INTEGRITY_KEY: u32 = 626;

pub const SUPPORTED_FEATURES: u32 = 628;

pub const FEATURE_LIST_ID: u32 = 629;

pub const FEATURE_LIST: u32 = 630;

// 3GPP TS 29.329, with V; its User-Data is another than 29.229's.
pub const USER_IDENTITY: u32 = 700;

pub const SH_USER_DATA: u32 = 702;

pub const DATA_REFERENCE: u32 = 703;
