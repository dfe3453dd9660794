#![tactic(auto)]
// Records found by their identities, a subscription's first server name, a visited network's number.
ghost use Rattle.std.specs.Fn.{FnReturnsAt};
ghost use Rattle.std.specs.Prelude.{ℕ, Bool, List, ◌≡◌, ◌+◌, ◌*◌, ◌/◌, ◌%◌, ◌^◌, ◌≤◌, ◌<◌, length, eqb};
ghost use Rattle.octets.specs.Name.{same};
ghost use Rattle.record.specs.Fields.{networks_of, private_of};
ghost use Rattle.blocks.specs.Blocks.{block_of};
ghost use Rattle.table.specs.SoundTable.{SoundTable};
ghost use Rattle.lookup.specs.Find.{first_from, is_at, block_found, find_public, find_private, server_here, find_server, free_here, find_free, barred_alone};
ghost use Rattle.lookup.specs.Network.{agree_at, network_number, roams_in, may_roam};

use octets::name;
use record::header::Header;
use record::subscriber::Record;
use record::{fields, networks, sets};
use std::cmp::Ordering;

// The block of a record that was found, 0 where none was.
pub fn block_found(f: Option<u32>) -> u32
    ensures { result ≡ block_found f }
{
    f.unwrap_or(0)
}

// A number from one up to another, halfway.
fn middle(low: usize, high: usize) -> usize
    requires { low < high }
    ensures { (low ≤ result) × (result < high) }
{
    low + (high - low) / 2
}

// The record with a public identity, by halving: public identities rise. It finds what a scan finds.
pub fn find_public(t: &[u8], count: usize, name: &[u8]) -> Option<u32>
    requires { SoundTable t.now count }
    ensures { result ≡ find_public t.now count name.now }
{
    // By index: the blocks lie in lent bytes, of which the library's searches see no records.
    let mut low = 1;
    let mut high = count + 1;
    while low < high {
        let k = middle(low, high);
        match name::order_of(fields::public(blocks::block(t, k)), name) {
            Ordering::Less => {
                low = k + 1;
            }
            Ordering::Equal => {
                return Some(k as u32);
            }
            Ordering::Greater => {
                high = k;
            }
        }
    }
    None
}

// The first record, in table order, whose block passes a test.
fn first_that<F: Fn(&[u8; 512]) -> bool>(t: &[u8], count: usize, test: F) -> Option<u32>
    requires table { SoundTable t.now count }
    requires callable { F.IsAlwaysCallable test }
    ensures { (p : List ℕ → Bool) → ((b : List ℕ) (x : Bool) → FnReturnsAt F.Fn test b x → x ≡ p b)
        → result ≡ first_from (λ k. p (block_of t.now k)) count 1 }
{
    for k in 1..=count {
        if test(blocks::block(t, k)) {
            return Some(k as u32);
        }
    }
    None
}

// Whether a record block has a private identity.
fn belongs(b: &[u8; 512], name: &[u8]) -> bool
    ensures { result ≡ same (private_of b.now) name.now }
{
    name::same(fields::private(b), name)
}

// The first record with a private identity.
fn find_private(t: &[u8], count: usize, name: &[u8]) -> Option<u32>
    requires { SoundTable t.now count }
    ensures { result ≡ find_private t.now count name.now }
{
    first_that(t, count, |b| belongs(b, name))
}

// Whether a private identity is in the table.
pub fn known_private(t: &[u8], count: usize, name: &[u8]) -> bool
    requires { SoundTable t.now count }
    ensures { result ≡ is_at (find_private t.now count name.now) }
{
    find_private(t, count, name).is_some()
}

// The same, where the record in block k is likely to have it: then nothing is scanned.
pub fn known_near(t: &[u8], count: usize, k: u32, name: &[u8]) -> bool
    requires { SoundTable t.now count × (1 ≤ k) × (k ≤ count) }
    ensures { result ≡ is_at (find_private t.now count name.now) }
{
    belongs(blocks::block(t, k as usize), name) || known_private(t, count, name)
}

// Whether a record block belongs to a subscription and stores a server name. The private identity, further into the block, is read only where
// there is one.
fn serves(b: &[u8; 512], name: &[u8]) -> bool
    ensures { result ≡ server_here b.now name.now }
{
    b[Record::SERVER_LENGTH_AT] != 0 && belongs(b, name)
}

// The first record of a subscription that stores a server name.
pub fn first_server(t: &[u8], count: usize, name: &[u8]) -> Option<u32>
    requires { SoundTable t.now count }
    ensures { result ≡ find_server t.now count name.now }
{
    first_that(t, count, |b| serves(b, name))
}

// Whether a record is of the set of block b and not barred.
fn free(b: &[u8; 512], c: &[u8; 512]) -> bool
    ensures { result ≡ free_here b.now c.now }
{
    sets::same_set(b, c) & !fields::barred(c)
}

// The first record of the set of block b that is not barred. Without a set there is none, and nothing is scanned.
fn find_free(t: &[u8], count: usize, b: &[u8; 512]) -> Option<u32>
    requires { SoundTable t.now count }
    ensures { result ≡ find_free t.now count b.now }
{
    if sets::set(b) == 0 {
        return None;
    }
    first_that(t, count, |c| free(b, c))
}

// Whether a record is barred, and every other of its set. Only a barred one's set is looked for.
pub fn barred_alone(t: &[u8], count: usize, b: &[u8; 512]) -> bool
    requires { SoundTable t.now count }
    ensures { result ≡ barred_alone t.now count b.now }
{
    fields::barred(b) && find_free(t, count, b).is_none()
}

// Whether byte i of a network's place, first its length, is as the name asks.
fn agree(b: &[u8; 512], at: usize, name: &[u8], i: usize) -> bool
    requires { (at ≤ 368) × (i ≤ length name.now) }
    ensures { result ≡ agree_at b.now at name.now i }
{
    if i == 0 {
        octets::byte(b, at) == name.len()
    } else {
        octets::byte_or_zero(b, at + i) == name[i - 1]
    }
}

// The number of the visited network with a name, or the count of networks where none has it.
fn network(t: &[u8], count: usize, name: &[u8]) -> usize
    requires { SoundTable t.now count }
    ensures { result ≡ network_number (block_of t.now 0) (networks_of (block_of t.now 0)) name.now }
{
    let h = blocks::block(t, 0);
    let networks = octets::byte(h, Header::NETWORKS_AT);
    // A form of document 01: the places are passed by a label.
    let mut k = 0;
    'places: while k < networks {
        let at = networks::place(k);
        let mut i = 0;
        while agree(h, at, name, i) {
            if i == name.len() {
                break 'places;
            }
            i += 1;
        }
        k += 1;
    }
    k
}

// Bit n of a roaming byte.
fn roams_at(roaming: u8, n: usize) -> bool
    ensures { result ≡ eqb (roaming / 2 ^ n % 2) 1 }
{
    n < 8 && (roaming >> n) % 2 == 1
}

// Whether network n is one of them, and its bit is set.
fn roams_in(roaming: u8, networks: usize, n: usize) -> bool
    ensures { result ≡ roams_in roaming networks n }
{
    (n < networks) & roams_at(roaming, n)
}

// Whether the record in block b may roam in the visited network with a name: it is named in the header, and its bit is set.
pub fn may_roam(t: &[u8], count: usize, b: &[u8; 512], name: &[u8]) -> bool
    requires { SoundTable t.now count }
    ensures { result ≡ may_roam (block_of t.now 0) b.now name.now }
{
    let networks = octets::byte(blocks::block(t, 0), Header::NETWORKS_AT);
    roams_in(b[Record::ROAMING_AT], networks, network(t, count, name))
}
