#![tactic(auto)]
// A table written as a list: export.
ghost use Rattle.std.specs.Prelude.{◌≡◌, ◌+◌, ◌*◌, ◌≤◌, length};
ghost use Rattle.octets.specs.Run.{Wrote};
ghost use Rattle.blocks.specs.Blocks.{block_of};
ghost use Rattle.table.specs.Check.{check_table};
ghost use Rattle.table.specs.SoundTable.{SoundTable};
ghost use Rattle.rows.specs.Row.{row_of, line_of};
ghost use Rattle.listing.specs.ListOf.{first_line, lines_of, list_of, listable_at, first_unlisted};
ghost use Rattle.listing.specs.Export.{came, writing, export_past, export_sound, export_checked, exported};

use blocks::{Checked, block};
use octets::run;
use record::fields;
use record::header::Header;

// The refusals, by their numbers.
pub const UNSOUND: u16 = 5;

pub const UNLISTED: u16 = 13;

pub const TOO_SHORT: u16 = 15;

// Why nothing was written: a refusal's number, with what it returns besides, a block or a line.
#[derive(Clone, Copy, PartialEq, Eq)]
pub struct Refusal {
    pub number: u16,
    pub value: u32,
}

// Writes the first line.
fn put_first(out: &mut [u8]) -> usize
    requires { length first_line ≤ length out.old }
    ensures { (result ≤ length out.old) × Wrote first_line out.old out.new result }
{
    run::copy(
        out,
        b"public,private,server,state,pending,barred,services,roaming,mandatory,m1,m2,m3,m4,optional,o1,o2,o3,o4,start,length,set\r\n",
    );
    121
}

// Whether the three names of record k can be listed.
fn listable_at(t: &[u8], k: usize) -> bool
    requires { 512 * k + 512 ≤ length t.now }
    ensures { result ≡ listable_at t.now k }
{
    let b = block(t, k);
    quoting::listable(fields::public(b))
        & quoting::listable(fields::private(b))
        & quoting::listable(fields::server(b))
}

// The first record with a name that cannot be listed, and the count where there is none.
fn first_unlisted(t: &[u8], count: usize) -> Checked
    requires { (count ≤ 4096) × (length t.now ≡ 512 * (count + 1)) }
    ensures { result ≡ first_unlisted t.now count }
{
    for k in 1..=count {
        if !listable_at(t, k) {
            return Err(k as u32);
        }
    }
    Ok(count as u32)
}

// How long the line of record k is.
fn size_at(t: &[u8], count: usize, k: usize) -> usize
    requires { SoundTable t.now count × (1 ≤ k) × (k ≤ count) }
    ensures { (result ≡ length (line_of (row_of (block_of t.now k)))) × (result ≤ 1024) }
{
    rows::line_size(block(t, k))
}

// How long the list is.
fn list_size(t: &[u8], count: usize) -> usize
    requires { SoundTable t.now count }
    ensures { (result ≡ length (list_of t.now)) × (result ≤ 4194425) }
{
    let mut n = 121;
    for k in 0..count {
        n += size_at(t, count, k + 1);
    }
    n
}

// Writes the line of record k.
fn put_at(out: &mut [u8], t: &[u8], count: usize, k: usize) -> usize
    requires { SoundTable t.now count × (1 ≤ k) × (k ≤ count) × (length (line_of (row_of (block_of t.now k))) ≤ length out.old) }
    ensures { (result ≤ length out.old) × Wrote (line_of (row_of (block_of t.now k))) out.old out.new result }
{
    rows::put_line(out, block(t, k))
}

// Writes the lines of all records.
fn put_lines(out: &mut [u8], t: &[u8], count: usize) -> usize
    requires { SoundTable t.now count × (length (lines_of t.now count) ≤ length out.old) }
    ensures { Wrote (lines_of t.now count) out.old out.new result }
{
    let mut n = 0;
    for k in 0..count {
        n += put_at(&mut out[n..], t, count, k + 1);
    }
    n
}

// Writes the list.
fn put_list(out: &mut [u8], t: &[u8], count: usize)
    requires { SoundTable t.now count × (length (list_of t.now) ≤ length out.old) }
    ensures { Wrote (list_of t.now) out.old out.new (length (list_of t.now)) }
{
    let n = put_first(out);
    put_lines(&mut out[n..], t, count);
}

// Writes the list if the area holds it.
fn write(list: &mut [u8], t: &[u8], count: usize) -> Result<u32, Refusal>
    requires { SoundTable t.now count }
    ensures { came result list.new ≡ writing list.old (list_of t.now) }
{
    let size = list_size(t, count);
    if list.len() < size {
        return Err(Refusal {
            number: TOO_SHORT,
            value: 0,
        });
    }
    put_list(list, t, count);
    Ok(size as u32)
}

// What follows from the first record with a name that cannot be listed.
fn export_past(list: &mut [u8], t: &[u8], count: usize, names: Checked) -> Result<u32, Refusal>
    requires { SoundTable t.now count }
    ensures { came result list.new ≡ export_past t.now list.old names }
{
    match names {
        Ok(_) => write(list, t, count),
        Err(value) => Err(Refusal {
            number: UNLISTED,
            value,
        }),
    }
}

// A sound table, which is listed if it is of edition 2.
fn export_sound(list: &mut [u8], t: &[u8], count: usize) -> Result<u32, Refusal>
    requires { SoundTable t.now count }
    ensures { came result list.new ≡ export_sound t.now list.old count }
{
    if t[Header::EDITION_AT] == Header::SECOND_EDITION {
        let names = first_unlisted(t, count);
        return export_past(list, t, count, names);
    }
    Err(Refusal {
        number: UNSOUND,
        value: 0,
    })
}

// A table that was checked.
fn export_checked(list: &mut [u8], t: &[u8], file: usize, c: Checked) -> Result<u32, Refusal>
    requires { c ≡ check_table t.now file }
    ensures { came result list.new ≡ export_checked t.now list.old c }
{
    match c {
        Ok(count) => export_sound(list, t, count as usize),
        Err(value) => Err(Refusal {
            number: UNSOUND,
            value,
        }),
    }
}

// The list of a table, beside a profile file of such a length.
pub fn export(t: &[u8], file: usize, list: &mut [u8]) -> Result<u32, Refusal>
    ensures { came result list.new ≡ exported t.now file list.old }
{
    let c = table::check(t, file);
    export_checked(list, t, file, c)
}
