// A working area, which may be longer than the table at its front.
ghost use Rattle.std.specs.Prelude.{◌≡◌, ◌≤◌, length, take};
ghost use Rattle.table.specs.Area.{table_in, check_area};

use blocks::{BLOCK, Checked, block};
use octets::number;
use record::header::Header;

// How many bytes of an area are its table's: as many as the count in its block 0 says, and all of a shorter one.
pub fn table_length(area: &[u8]) -> usize
    ensures { (take result area.now ≡ table_in area.now) × (result ≤ length area.now) }
{
    if area.len() < BLOCK {
        return area.len();
    }
    let size = BLOCK * (number::be32(block(area, 0), Header::COUNT_AT) as usize + 1);
    size.min(area.len())
}

// The table at the front of an area.
pub fn table_in(area: &[u8]) -> &[u8]
    ensures { result.now ≡ table_in area.now }
{
    &area[..table_length(area)]
}

// The check of an area: no byte past its table is looked at.
pub fn check_area(area: &[u8], file: usize) -> Checked
    ensures { result ≡ check_area area.now file }
{
    crate::check(table_in(area), file)
}
