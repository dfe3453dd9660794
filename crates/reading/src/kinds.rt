// The known kinds of AVPs. A kind's number is its place in the order in which a missing one is looked for; 0 is an unknown kind.
// By number, and no enum: the definition `known` numbers them so, and the places that reading leaves stand in an array by it.
ghost use Rattle.std.specs.Prelude.{◌≡◌, ◌<◌};
ghost use Rattle.diameter.specs.Reader.{own_of, Here};
ghost use Rattle.reading.specs.Kinds.{kinds, uses, everywhere, of_cx, of_sh, row, kind_by, kind_of, row_of, use_in, is_needed};

use crate::group::Group;
use crate::{Content, Dialect, Kind, Use, Uses};
use diameter::{Avp, codes};

pub const SESSION_ID: usize = 1;

pub const APPLICATION: usize = 2;

pub const SESSION_STATE: usize = 3;

pub const ORIGIN_HOST: usize = 4;

pub const ORIGIN_REALM: usize = 5;

pub const DESTINATION_REALM: usize = 6;

pub const USER_NAME: usize = 7;

pub const PUBLIC_IDENTITY: usize = 8;

pub const VISITED_NETWORK: usize = 9;

pub const AUTH_DATA_ITEM: usize = 10;

pub const NUMBER_AUTH_ITEMS: usize = 11;

pub const SERVER_NAME: usize = 12;

pub const ASSIGNMENT_TYPE: usize = 13;

pub const DATA_AVAILABLE: usize = 14;

pub const AUTHORIZATION_TYPE: usize = 15;

pub const DESTINATION_HOST: usize = 16;

pub const PROXY_INFO: usize = 17;

pub const ROUTE_RECORD: usize = 18;

pub const SUPPORTED_FEATURES: usize = 19;

pub const USER_IDENTITY: usize = 20;

pub const DATA_REFERENCE: usize = 21;

// How many kinds there are, the unknown one among them.
pub const KINDS: usize = 22;

// The uses, as the table's columns have them.
const X: Use = Use::Unknown;

const U: Use = Use::Unnamed;

const N: Use = Use::Needed;

const O: Use = Use::Optional;

const R: Use = Use::Repeated;

const S: Use = Use::Several;

// The limits of a Server-Name: those of a record's.
const SERVER: Content = Content::Sized(1, 96);

// A 4-byte number of any value.
pub const NUMBER: Content = Content::Number(0, u32::MAX);

// The uses of a kind: in a UAR, in a SAR, in a LIR, in a MAR and on Sh.
fn uses(uar: Use, sar: Use, lir: Use, mar: Use, udr: Use) -> Uses
    ensures { result ≡ uses uar sar lir mar udr }
{
    Uses {
        uar,
        sar,
        lir,
        mar,
        udr,
    }
}

fn everywhere(u: Use) -> Uses
    ensures { result ≡ everywhere u }
{
    uses(u, u, u, u, u)
}

fn of_cx(uar: Use, sar: Use, lir: Use, mar: Use) -> Uses
    ensures { result ≡ of_cx uar sar lir mar }
{
    uses(uar, sar, lir, mar, X)
}

fn of_sh(udr: Use) -> Uses
    ensures { result ≡ of_sh udr }
{
    uses(X, X, X, X, udr)
}

// A row of the table: code, vendor, content and uses.
fn row(code: u32, vendor: u32, content: Content, uses: Uses) -> Kind
    ensures { result ≡ row code vendor content uses }
{
    Kind {
        code,
        vendor,
        content,
        uses,
    }
}

// "Known, vendor 0 without V: .. With V and 10415: .." and "Needed everywhere: .. UAR then .. SAR .. LIR ..", 003's grammar of a MAR, and 001's of a UDR: the
// row of a kind.
#[tactic(auto, unfolding(crate::specs::Kinds::row_of, crate::specs::Kinds::known))]
pub fn row_of(k: usize) -> Kind
    ensures { result ≡ row_of k }
{
    match k {
        SESSION_ID => row(codes::SESSION_ID, 0, Content::Free, everywhere(N)),
        APPLICATION => row(
            codes::VENDOR_SPECIFIC_APPLICATION_ID,
            0,
            Content::Members(Group::Application),
            everywhere(N),
        ),
        SESSION_STATE => row(
            codes::AUTH_SESSION_STATE,
            0,
            Content::Number(1, 1),
            everywhere(N),
        ),
        ORIGIN_HOST => row(codes::ORIGIN_HOST, 0, Content::Free, everywhere(N)),
        ORIGIN_REALM => row(codes::ORIGIN_REALM, 0, Content::Free, everywhere(N)),
        DESTINATION_REALM => row(codes::DESTINATION_REALM, 0, Content::Free, everywhere(N)),
        USER_NAME => row(codes::USER_NAME, 0, Content::Free, uses(N, O, U, N, O)),
        PUBLIC_IDENTITY => row(
            codes::PUBLIC_IDENTITY,
            codes::VENDOR,
            Content::Free,
            of_cx(N, R, N, N),
        ),
        VISITED_NETWORK => row(
            codes::VISITED_NETWORK_IDENTIFIER,
            codes::VENDOR,
            Content::Free,
            of_cx(N, U, U, U),
        ),
        AUTH_DATA_ITEM => row(
            codes::SIP_AUTH_DATA_ITEM,
            codes::VENDOR,
            Content::Members(Group::AuthDataItem),
            of_cx(U, U, U, N),
        ),
        NUMBER_AUTH_ITEMS => row(
            codes::SIP_NUMBER_AUTH_ITEMS,
            codes::VENDOR,
            NUMBER,
            of_cx(U, U, U, N),
        ),
        SERVER_NAME => row(codes::SERVER_NAME, codes::VENDOR, SERVER, of_cx(U, N, U, N)),
        ASSIGNMENT_TYPE => row(
            codes::SERVER_ASSIGNMENT_TYPE,
            codes::VENDOR,
            Content::Number(0, 11),
            of_cx(U, N, U, U),
        ),
        DATA_AVAILABLE => row(
            codes::USER_DATA_ALREADY_AVAILABLE,
            codes::VENDOR,
            Content::Number(0, 1),
            of_cx(U, N, U, U),
        ),
        AUTHORIZATION_TYPE => row(
            codes::USER_AUTHORIZATION_TYPE,
            codes::VENDOR,
            Content::Number(0, 2),
            of_cx(O, U, U, U),
        ),
        DESTINATION_HOST => row(codes::DESTINATION_HOST, 0, Content::Free, everywhere(O)),
        PROXY_INFO => row(codes::PROXY_INFO, 0, Content::Free, everywhere(R)),
        ROUTE_RECORD => row(codes::ROUTE_RECORD, 0, Content::Free, everywhere(R)),
        SUPPORTED_FEATURES => row(
            codes::SUPPORTED_FEATURES,
            codes::VENDOR,
            Content::Members(Group::SupportedFeatures),
            uses(R, R, R, R, U),
        ),
        USER_IDENTITY => row(
            codes::USER_IDENTITY,
            codes::VENDOR,
            Content::Members(Group::UserIdentity),
            of_sh(N),
        ),
        DATA_REFERENCE => row(codes::DATA_REFERENCE, codes::VENDOR, NUMBER, of_sh(S)),
        _ => row(0, 0, Content::Free, everywhere(X)),
    }
}

// "Known, vendor 0 without V"
#[tactic(auto, using(crate::proofs::Known::base_none), unfolding(crate::specs::Kinds::kind_by, crate::specs::Kinds::kind_from, crate::specs::Kinds::known))]
fn base_kind(code: u32) -> usize
    ensures { (result ≡ kind_by 0 0 code) × (result < kinds) }
{
    match code {
        codes::SESSION_ID => SESSION_ID,
        codes::VENDOR_SPECIFIC_APPLICATION_ID => APPLICATION,
        codes::AUTH_SESSION_STATE => SESSION_STATE,
        codes::ORIGIN_HOST => ORIGIN_HOST,
        codes::ORIGIN_REALM => ORIGIN_REALM,
        codes::DESTINATION_REALM => DESTINATION_REALM,
        codes::USER_NAME => USER_NAME,
        codes::DESTINATION_HOST => DESTINATION_HOST,
        codes::PROXY_INFO => PROXY_INFO,
        codes::ROUTE_RECORD => ROUTE_RECORD,
        _ => 0,
    }
}

// "With V and 10415"
#[tactic(auto, using(crate::proofs::Known::vendor_none), unfolding(crate::specs::Kinds::kind_by, crate::specs::Kinds::kind_from, crate::specs::Kinds::known))]
fn vendor_kind(code: u32) -> usize
    ensures { (result ≡ kind_by 128 10415 code) × (result < kinds) }
{
    match code {
        codes::PUBLIC_IDENTITY => PUBLIC_IDENTITY,
        codes::VISITED_NETWORK_IDENTIFIER => VISITED_NETWORK,
        codes::SIP_AUTH_DATA_ITEM => AUTH_DATA_ITEM,
        codes::SIP_NUMBER_AUTH_ITEMS => NUMBER_AUTH_ITEMS,
        codes::SERVER_NAME => SERVER_NAME,
        codes::SERVER_ASSIGNMENT_TYPE => ASSIGNMENT_TYPE,
        codes::USER_DATA_ALREADY_AVAILABLE => DATA_AVAILABLE,
        codes::USER_AUTHORIZATION_TYPE => AUTHORIZATION_TYPE,
        codes::SUPPORTED_FEATURES => SUPPORTED_FEATURES,
        codes::USER_IDENTITY => USER_IDENTITY,
        codes::DATA_REFERENCE => DATA_REFERENCE,
        _ => 0,
    }
}

// The number of a kind. "V with vendor 0 is an unknown kind."
pub fn kind_by(flags: u8, vendor: u32, code: u32) -> usize
    ensures { (result ≡ kind_by flags vendor code) × (result < kinds) }
{
    if flags < diameter::V_FLAG {
        return base_kind(code);
    }
    if vendor == codes::VENDOR {
        return vendor_kind(code);
    }
    0
}

// The kind of an AVP.
pub fn kind_of(s: &[u8], a: Avp) -> usize
    requires { Here s.now a }
    ensures { (result ≡ kind_of (own_of s.now a)) × (result < kinds) }
{
    kind_by(a.flags, diameter::vendor_of(s, a), diameter::code_of(s, a))
}

// What a dialect makes of a kind: on Sh by its own list, whatever the command; else by the command.
pub fn use_in(d: Dialect, k: Kind) -> Use
    ensures { result ≡ use_in d k }
{
    let terms = d.terms;
    let uses = k.uses;
    if terms.application == codes::SH {
        return uses.udr;
    }
    match d.command {
        crate::UAR => uses.uar,
        crate::SAR => uses.sar,
        crate::LIR => uses.lir,
        _ => uses.mar,
    }
}

pub fn needed(u: Use) -> bool
    ensures { result ≡ is_needed u }
{
    matches!(u, Use::Needed | Use::Several)
}
