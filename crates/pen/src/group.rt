// Grouped AVPs. A group's length counts its members' padding.
ghost use Rattle.std.specs.Prelude.{◌≡◌, ◌++◌, ◌+◌, ◌*◌, ◌/◌, ◌≤◌, length};
ghost use Rattle.octets.specs.Run.{Wrote};
ghost use Rattle.pen.specs.Bytes.{number_bytes, group};
ghost use Rattle.pen.specs.Groups.{vendor_application, experimental, failed, failed_size, vendor_numbers, words, capabilities, capabilities_size};
ghost use Rattle.pen.specs.Groups.{own_features};

use diameter::codes;

// A group of Vendor-Id 10415 and one number more.
fn put_of_vendor(out: &mut [u8], code: u32, member: u32, n: u32) -> usize
    requires { 32 ≤ length out.old }
    ensures { (result ≡ 32) × Wrote (group code (number_bytes 266 10415 ++ number_bytes member n)) out.old out.new result }
{
    crate::put_head(out, code, crate::FLAGS, 32);
    let a = 8 + crate::put_number(&mut out[8..], codes::VENDOR_ID, codes::VENDOR);
    a + crate::put_number(&mut out[a..], member, n)
}

// Vendor-Specific-Application-Id.
pub fn put_application(out: &mut [u8], application: u32) -> usize
    requires { 32 ≤ length out.old }
    ensures { (result ≡ 32) × Wrote (vendor_application application) out.old out.new result }
{
    put_of_vendor(
        out,
        codes::VENDOR_SPECIFIC_APPLICATION_ID,
        codes::AUTH_APPLICATION_ID,
        application,
    )
}

// Result-Code.
pub fn put_base(out: &mut [u8], n: u32) -> usize
    requires { 12 ≤ length out.old }
    ensures { (result ≡ 12) × Wrote (number_bytes 268 n) out.old out.new result }
{
    crate::put_number(out, codes::RESULT_CODE, n)
}

// Experimental-Result.
pub fn put_experimental(out: &mut [u8], n: u32) -> usize
    requires { 32 ≤ length out.old }
    ensures { (result ≡ 32) × Wrote (experimental n) out.old out.new result }
{
    put_of_vendor(
        out,
        codes::EXPERIMENTAL_RESULT,
        codes::EXPERIMENTAL_RESULT_CODE,
        n,
    )
}

// Failed-AVP with a copied AVP; with nothing, where there is none to copy.
pub fn put_failed(out: &mut [u8], src: &[u8]) -> usize
    requires { failed_size (length src.now) ≤ length out.old }
    ensures { (result ≡ failed_size (length src.now)) × Wrote (failed src.now) out.old out.new result }
{
    crate::put_head(
        out,
        codes::FAILED_AVP,
        crate::FLAGS,
        8 + (src.len() + 3) / 4 * 4,
    );
    8 + crate::put_copy(&mut out[8..], src)
}

// The words of src, each as an AVP of vendor 10415.
fn put_numbers(out: &mut [u8], code: u32, src: &[u8]) -> usize
    requires { 16 * words src.now ≤ length out.old }
    ensures { (result ≡ 16 * words src.now)
        × Wrote (vendor_numbers code src.now (words src.now)) out.old out.new result }
{
    let (numbers, _) = src.as_chunks::<4>();
    let mut at = 0;
    for n in numbers {
        at += crate::put_vendor_avp(&mut out[at..], code, n);
    }
    at
}

// Server-Capabilities, of which there are some.
fn put_members(out: &mut [u8], mandatory: &[u8], optional: &[u8]) -> usize
    requires { (words mandatory.now + words optional.now ≡ 0 → ⊥) × (capabilities_size (words mandatory.now) (words optional.now) ≤ length out.old) }
    ensures { (result ≡ capabilities_size (words mandatory.now) (words optional.now))
        × Wrote (capabilities mandatory.now optional.now) out.old out.new result }
{
    crate::put_vendor_head(
        out,
        codes::SERVER_CAPABILITIES,
        12 + 16 * (mandatory.len() / 4) + 16 * (optional.len() / 4),
    );
    let a = 12 + put_numbers(&mut out[12..], codes::MANDATORY_CAPABILITY, mandatory);
    a + put_numbers(&mut out[a..], codes::OPTIONAL_CAPABILITY, optional)
}

// Server-Capabilities, or nothing where there are none.
pub fn put_capabilities(out: &mut [u8], mandatory: &[u8], optional: &[u8]) -> usize
    requires { length (capabilities mandatory.now optional.now) ≤ length out.old }
    ensures { (result ≤ length out.old) × (result ≤ capabilities_size (words mandatory.now) (words optional.now))
        × Wrote (capabilities mandatory.now optional.now) out.old out.new result }
{
    if mandatory.len() / 4 + optional.len() / 4 == 0 {
        return 0;
    }
    put_members(out, mandatory, optional)
}

// Supported-Features: the server's own list, of list 1.
pub fn put_features(out: &mut [u8], set: u32) -> usize
    requires { 56 ≤ length out.old }
    ensures { (result ≡ 56) × Wrote (own_features set) out.old out.new result }
{
    crate::put_long_head(out, codes::SUPPORTED_FEATURES, crate::PLAIN_FLAGS, 56);
    let a = 12 + crate::put_number(&mut out[12..], codes::VENDOR_ID, codes::VENDOR);
    let b = a
        + crate::put_long_number(&mut out[a..], codes::FEATURE_LIST_ID, crate::PLAIN_FLAGS, 1);
    b + crate::put_long_number(&mut out[b..], codes::FEATURE_LIST, crate::PLAIN_FLAGS, set)
}
