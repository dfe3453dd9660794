// The names in a block, as parts of it, and the bits of a record.
ghost use Rattle.std.specs.Prelude.{◌≡◌, ◌<◌, ◌≤◌, length, take, drop, slice_index};
ghost use Rattle.record.specs.Fields.{host_of, realm_of, public_of, public_field, private_of, server_of, bits_of, barred, unregistered_services};

use crate::header::Header;
use crate::subscriber::Record;

// A name that begins at a place, its length in the byte at another; it is cut at the block's end.
fn part(b: &[u8; 512], at: usize, length_at: usize) -> &[u8]
    requires { (at ≤ 512) × (length_at < 512) }
    ensures { (result.now ≡ take (slice_index b.now length_at) (drop at b.now)) × (length result.now ≤ 255) }
{
    let to = at + octets::byte(b, length_at);
    &b[at..to.min(b.len())]
}

pub fn host(b: &[u8; 512]) -> &[u8]
    ensures { (result.now ≡ host_of b.now) × (length result.now ≤ 255) }
{
    part(b, Header::HOST_AT, Header::HOST_LENGTH_AT)
}

pub fn realm(b: &[u8; 512]) -> &[u8]
    ensures { (result.now ≡ realm_of b.now) × (length result.now ≤ 255) }
{
    part(b, Header::REALM_AT, Header::REALM_LENGTH_AT)
}

pub fn public(b: &[u8; 512]) -> &[u8]
    ensures { (result.now ≡ public_of b.now) × (length result.now ≤ 255) }
{
    part(b, Record::PUBLIC_AT, Record::PUBLIC_LENGTH_AT)
}

// The whole field of the public identity, with the zeros past the name.
pub fn public_field(b: &[u8; 512]) -> &[u8]
    ensures { (result.now ≡ public_field b.now) × (length result.now ≡ 128) }
{
    &b[Record::PUBLIC_AT..Record::PRIVATE_AT]
}

pub fn private(b: &[u8; 512]) -> &[u8]
    ensures { (result.now ≡ private_of b.now) × (length result.now ≤ 255) }
{
    part(b, Record::PRIVATE_AT, Record::PRIVATE_LENGTH_AT)
}

pub fn server(b: &[u8; 512]) -> &[u8]
    ensures { (result.now ≡ server_of b.now) × (length result.now ≤ 255) }
{
    part(b, Record::SERVER_AT, Record::SERVER_LENGTH_AT)
}

// Whether a record is barred; whether it has unregistered services.
pub fn barred(b: &[u8; 512]) -> bool
    ensures { result ≡ barred (bits_of b.now) }
{
    Record::read(b).barred()
}

pub fn unregistered_services(b: &[u8; 512]) -> bool
    ensures { result ≡ unregistered_services (bits_of b.now) }
{
    Record::read(b).unregistered_services()
}
