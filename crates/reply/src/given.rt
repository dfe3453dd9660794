// What a decision gives: User-Name, Public-Identity, Server-Name, vectors, Server-Capabilities, User-Data.
ghost use Rattle.std.specs.Prelude.{◌++◌, ◌≤◌, length};
ghost use Rattle.octets.specs.Run.{Wrote};
ghost use Rattle.table.specs.SoundTable.{SoundTable};
ghost use Rattle.vectors.specs.Sendable.{Sendable};
ghost use Rattle.items.specs.Items.{sent_bytes};
ghost use Rattle.reply.specs.Pieces.{identity_bytes, name_bytes, data_bytes, given_bytes};

use choices::Given;
use diameter::codes;
use pen::group;

// User-Name and Public-Identity, each absent where block 0 is named.
fn put_identities(out: &mut [u8], t: &[u8], count: usize, g: Given) -> usize
    requires { SoundTable t.now count × (length (identity_bytes t.now g) ≤ length out.old) }
    ensures { (result ≤ length out.old) × Wrote (identity_bytes t.now g) out.old out.new result }
{
    let user = parts::user(t, count, g.user as usize);
    let public = parts::public(t, count, g.public as usize);
    let a = pen::put_avp_if(out, codes::USER_NAME, user);
    a + pen::put_vendor_if(&mut out[a..], codes::PUBLIC_IDENTITY, public)
}

// The identities, and Server-Name.
fn put_names(out: &mut [u8], t: &[u8], count: usize, g: Given) -> usize
    requires { SoundTable t.now count × (length (name_bytes t.now g) ≤ length out.old) }
    ensures { (result ≤ length out.old) × Wrote (name_bytes t.now g) out.old out.new result }
{
    let server = parts::server(t, count, g.server as usize);
    let a = put_identities(out, t, count, g);
    a + pen::put_vendor_if(&mut out[a..], codes::SERVER_NAME, server)
}

// Server-Capabilities and User-Data.
fn put_data(out: &mut [u8], t: &[u8], file: &[u8], count: usize, g: Given) -> usize
    requires { SoundTable t.now count × (length (data_bytes t.now file.now g) ≤ length out.old) }
    ensures { (result ≤ length out.old) × Wrote (data_bytes t.now file.now g) out.old out.new result }
{
    let mandatory = parts::mandatory(t, count, g.capable as usize);
    let optional = parts::optional(t, count, g.capable as usize);
    let data = parts::profile(t, count, file, g.profile as usize);
    let a = group::put_capabilities(out, mandatory, optional);
    a + pen::put_vendor_if(&mut out[a..], codes::USER_DATA, data)
}

// The vectors that are sent, then the data.
fn put_contents(out: &mut [u8], t: &[u8], file: &[u8], v: &[u8], count: usize, g: Given) -> usize
    requires { SoundTable t.now count × Sendable v.now g.sent
        × (length (sent_bytes v.now g.sent ++ data_bytes t.now file.now g) ≤ length out.old) }
    ensures { (result ≤ length out.old)
        × Wrote (sent_bytes v.now g.sent ++ data_bytes t.now file.now g) out.old out.new result }
{
    let a = items::put_sent(out, v, g.sent);
    a + put_data(&mut out[a..], t, file, count, g)
}

// All of it.
pub fn put_given(out: &mut [u8], t: &[u8], file: &[u8], v: &[u8], count: usize, g: Given) -> usize
    requires { SoundTable t.now count × Sendable v.now g.sent × (length (given_bytes t.now file.now v.now g) ≤ length out.old) }
    ensures { (result ≤ length out.old)
        × Wrote (given_bytes t.now file.now v.now g) out.old out.new result }
{
    let a = put_names(out, t, count, g);
    a + put_contents(&mut out[a..], t, file, v, count, g)
}
