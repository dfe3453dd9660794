#![tactic(auto)]
// User-Data 702 of an answer: the XML of docs/SH.md, written where it stays.
ghost use Rattle.std.specs.Prelude.{◌≡◌, ◌++◌, ◌+◌, ◌≤◌, length};
ghost use Rattle.octets.specs.Run.{Wrote};
ghost use Rattle.markup.specs.Escapes.{escaped};
ghost use Rattle.pen.specs.Bytes.{copied, copied_size, vendor_bytes, vendor_size};
ghost use Rattle.user_data.specs.UserData.{user_state, name_text, state_text, name_element, state_element, sh_text, user_data_bytes};

use diameter::codes;
use octets::run;

// What the Data-References of a request ask for: the registration state (11), the server name (12), anything else.
#[derive(Clone, Copy)]
pub struct References {
    pub state: bool,
    pub name: bool,
    pub other: bool,
}

// The values of IMSUserState.
const NOT_REGISTERED: u8 = 0;

const REGISTERED: u8 = 1;

const REGISTERED_UNREG_SERVICES: u8 = 2;

const AUTHENTICATION_PENDING: u8 = 3;

// The state that is told of a record: registered (1) or unregistered (2), pending or not; else by whether it is pending.
fn user_state(state: u8, pending: bool) -> u8
    ensures { (result ≡ user_state state pending) × (result ≤ 3) }
{
    match state {
        1 => REGISTERED,
        2 => REGISTERED_UNREG_SERVICES,
        _ if pending => AUTHENTICATION_PENDING,
        _ => NOT_REGISTERED,
    }
}

// The element of a server name.
fn put_name(out: &mut [u8], name: &[u8]) -> usize
    requires { 23 + length (escaped name.now) ≤ length out.old }
    ensures { (result ≤ length out.old) × Wrote (name_text name.now) out.old out.new result }
{
    let a = markup::put_text(out, b"<SCSCFName>");
    let b = a + markup::put_escaped(&mut out[a..], name);
    b + markup::put_text(&mut out[b..], b"</SCSCFName>")
}

// The same, or nothing where none was asked for or none is stored.
fn put_name_if(out: &mut [u8], asked: References, name: &[u8]) -> usize
    requires { length (name_element asked name.now) ≤ length out.old }
    ensures { (result ≤ length out.old) × Wrote (name_element asked name.now) out.old out.new result }
{
    if asked.name & (0 < name.len()) {
        put_name(out, name)
    } else {
        0
    }
}

// The element of a registration state.
fn put_state(out: &mut [u8], n: u8) -> usize
    requires { (n ≤ 3) × (30 ≤ length out.old) }
    ensures { (result ≡ 30) × Wrote (state_text n) out.old out.new result }
{
    let a = markup::put_text(out, b"<IMSUserState>");
    let b = a + markup::put_byte(&mut out[a..], b'0' + n);
    b + markup::put_text(&mut out[b..], b"</IMSUserState>")
}

// The same, or nothing where it was not asked for.
fn put_state_if(out: &mut [u8], asked: References, n: u8) -> usize
    requires { (n ≤ 3) × (length (state_element asked n) ≤ length out.old) }
    ensures { (result ≤ length out.old) × Wrote (state_element asked n) out.old out.new result }
{
    if asked.state { put_state(out, n) } else { 0 }
}

// Both elements, in the schema's order.
fn put_elements(out: &mut [u8], asked: References, n: u8, name: &[u8]) -> usize
    requires { (n ≤ 3) × (length (name_element asked name.now) + length (state_element asked n) ≤ length out.old) }
    ensures { (result ≡ length (name_element asked name.now) + length (state_element asked n))
        × Wrote (name_element asked name.now ++ state_element asked n) out.old out.new result }
{
    let a = put_name_if(out, asked, name);
    a + put_state_if(&mut out[a..], asked, n)
}

// The data of 702.
fn put_data(out: &mut [u8], asked: References, n: u8, name: &[u8]) -> usize
    requires { (n ≤ 3) × (84 + (length (name_element asked name.now) + length (state_element asked n)) ≤ length out.old) }
    ensures { (result ≤ length out.old) × Wrote (sh_text asked n name.now) out.old out.new result }
{
    let a = markup::put_text(
        out,
        b"<?xml version=\"1.0\" encoding=\"UTF-8\"?><Sh-Data><Sh-IMS-Data>",
    );
    let b = a + put_elements(&mut out[a..], asked, n, name);
    b + markup::put_text(&mut out[b..], b"</Sh-IMS-Data></Sh-Data>")
}

// The data and their padding; the length leaves the padding out.
fn put_padded(out: &mut [u8], asked: References, n: u8, name: &[u8]) -> usize
    requires { (n ≤ 3) × (copied_size (length (sh_text asked n name.now)) ≤ length out.old) }
    ensures { (result ≡ length (sh_text asked n name.now))
        × Wrote (copied (sh_text asked n name.now)) out.old out.new (copied_size result) }
{
    let len = put_data(out, asked, n, name);
    run::clear(&mut out[len..], (len + 3) / 4 * 4 - len);
    len
}

// The AVP: the data first, since their length stands in the header.
fn put_avp(out: &mut [u8], asked: References, n: u8, name: &[u8]) -> usize
    requires { (n ≤ 3) × (vendor_size (length (sh_text asked n name.now)) ≤ length out.old) }
    ensures { (result ≡ vendor_size (length (sh_text asked n name.now)))
        × Wrote (vendor_bytes 702 (sh_text asked n name.now)) out.old out.new result }
{
    let len = put_padded(&mut out[12..], asked, n, name);
    pen::put_vendor_head(out, codes::SH_USER_DATA, 12 + len);
    12 + (len + 3) / 4 * 4
}

// User-Data of a record's state, pending and server name.
pub fn put_user_data(
    out: &mut [u8],
    asked: References,
    state: u8,
    pending: bool,
    name: &[u8],
) -> usize
    requires { length (user_data_bytes asked state pending name.now) ≤ length out.old }
    ensures { (result ≤ length out.old)
        × Wrote (user_data_bytes asked state pending name.now) out.old out.new result }
{
    put_avp(out, asked, user_state(state, pending), name)
}
