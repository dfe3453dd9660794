#![tactic(auto)]
// What the decisions ask of a sound table: every look-up is a scan from block 1.
ghost use Rattle.std.specs.Prelude.{ℕ, Bool, List, ◌≡◌, ◌≤◌, ◌<◌, MatchOption};
ghost use Rattle.std.specs.Fn.{FnReturnsAt};
ghost use Rattle.record.specs.Fields.{networks_of};
ghost use Rattle.record.specs.Networks.{network_of};
ghost use Rattle.blocks.specs.Blocks.{block_of};
ghost use Rattle.table.specs.SoundTable.{SoundTable};
ghost use Rattle.lookup.specs.Find.{first_from, is_at, find_public, find_private, find_server, find_free, barred_alone};
ghost use Rattle.lookup.specs.Network.{network_number, may_roam};

use blocks::block;
use plain_table::{bytes, subscriber};
use record::fields;
use record::header::Header;
use record::subscriber::Record;

// The first record, "by table order", whose block is one that is sought.
fn first<F: Fn(&[u8; 512]) -> bool>(t: &[u8], count: usize, sought: F) -> Option<u32>
    requires table { SoundTable t.now count }
    requires callable { F.IsAlwaysCallable sought }
    ensures { (p : List ℕ → Bool) → ((b : List ℕ) (r : Bool) → FnReturnsAt F.Fn sought b r → r ≡ p b)
        → result ≡ first_from (λ k. p (block_of t.now k)) count 1 }
{
    for k in 1..=count {
        if sought(block(t, k)) {
            return Some(k as u32);
        }
    }
    None
}

// The record with a public identity: no two have the same, since they rise.
pub fn find_public(t: &[u8], count: usize, name: &[u8]) -> Option<u32>
    requires { SoundTable t.now count }
    ensures { result ≡ find_public t.now count name.now }
{
    first(t, count, |b| bytes::same(fields::public(b), name))
}

// Whether a private identity is known. "A subscription is the records with one private identity."
pub fn known_private(t: &[u8], count: usize, name: &[u8]) -> bool
    requires { SoundTable t.now count }
    ensures { result ≡ is_at (find_private t.now count name.now) }
{
    first(t, count, |b| bytes::same(fields::private(b), name)).is_some()
}

// "the first server name in the subscription by table order": the record that stores it.
pub fn first_server(t: &[u8], count: usize, name: &[u8]) -> Option<u32>
    requires { SoundTable t.now count }
    ensures { result ≡ find_server t.now count name.now }
{
    first(
        t,
        count,
        |b| (0 < b[Record::SERVER_LENGTH_AT]) & bytes::same(fields::private(b), name),
    )
}

// The first record of the set of block b that is not barred.
fn find_free(t: &[u8], count: usize, b: &[u8; 512]) -> Option<u32>
    requires { SoundTable t.now count }
    ensures { result ≡ find_free t.now count b.now }
{
    first(
        t,
        count,
        |c| subscriber::same_set(b, c) & !fields::barred(c),
    )
}

// 02 [6]: "the identity is barred and no non-barred one shares its nonzero set"
pub fn barred_alone(t: &[u8], count: usize, b: &[u8; 512]) -> bool
    requires { SoundTable t.now count }
    ensures { result ≡ barred_alone t.now count b.now }
{
    fields::barred(b) & find_free(t, count, b).is_none()
}

// The name of visited network i.
fn network_name(t: &[u8], count: usize, i: usize) -> &[u8]
    requires { SoundTable t.now count × (i < networks_of (block_of t.now 0)) × (i < 8) }
    ensures { result.now ≡ network_of (block_of t.now 0) i }
{
    let h = block(t, 0);
    let at = Header::PLACES_AT + 32 * i;
    let size = octets::byte(h, at);
    &h[at + 1..at + 1 + size]
}

// The number of the visited network with a name.
fn network(t: &[u8], count: usize, name: &[u8]) -> Option<usize>
    requires { SoundTable t.now count }
    ensures { let n = networks_of (block_of t.now 0) in let found = network_number (block_of t.now 0) n name.now in
        MatchOption result (found ≡ n) (λ i. (i ≡ found) × (i < n) × (i < 8)) }
{
    let n = octets::byte(block(t, 0), Header::NETWORKS_AT);
    (0..n).find(|&i| bytes::same(network_name(t, count, i), name))
}

// "the visited network is named in the header and its bit set"
pub fn may_roam(t: &[u8], count: usize, b: &[u8; 512], name: &[u8]) -> bool
    requires { SoundTable t.now count }
    ensures { result ≡ may_roam (block_of t.now 0) b.now name.now }
{
    match network(t, count, name) {
        Some(n) => (octets::byte(b, Record::ROAMING_AT) >> n) % 2 == 1,
        None => false,
    }
}
