#![tactic(auto)]
// A list read back as a table. Nothing is written before all of it is judged.
ghost use Rattle.std.specs.Prelude.{◌≡◌, true, false, ◌+◌, ◌≤◌, length, MatchOption};
ghost use Rattle.importing.specs.Said.{table_said, first_wrong};
ghost use Rattle.importing.specs.Import.{fit_header, import_past, imported};
ghost use Rattle.judging.specs.Fit.{Fit};
ghost use Rattle.listing.specs.Export.{came, writing};

use blocks::{BLOCK, Checked};
use listing::Refusal;
use octets::{number, run};
use record::header;
use record::header::Header;

// "14, with the number of the first line, present or missing, that no export could hold there"
pub const WRONG_LINE: u16 = 14;

// A header block, if it is one that a list can be read under.
fn fit(b: &[u8]) -> Option<&[u8; 512]>
    ensures { MatchOption result (fit_header b.now ≡ false) (λ h. (fit_header b.now ≡ true) × (h.now ≡ b.now)) }
{
    match b.as_array::<BLOCK>() {
        Some(h) => {
            let mask = run::mask();
            if header::sound(h, &mask) & (h[Header::EDITION_AT] == Header::SECOND_EDITION) {
                Some(h)
            } else {
                None
            }
        }
        None => None,
    }
}

// Writes the table that a list says if the area holds it.
fn write(list: &[u8], header: &[u8; 512], area: &mut [u8]) -> Result<u32, Refusal>
    requires { Fit header.now × (121 ≤ length list.now) }
    ensures { came result area.new ≡ writing area.old (table_said list.now header.now) }
{
    let count = number::be32(header, Header::COUNT_AT) as usize;
    let size = BLOCK * (count + 1);
    if area.len() < size {
        return Err(Refusal {
            number: listing::TOO_SHORT,
            value: 0,
        });
    }
    saying::put_table(area, list, count, header);
    Ok(size as u32)
}

// The number of a line with so many before it.
fn line(before: u32) -> u32
    requires { before ≤ 4097 }
    ensures { result ≡ before + 1 }
{
    before + 1
}

// What follows from the first wrong line.
fn import_past(
    list: &[u8],
    header: &[u8; 512],
    file: usize,
    area: &mut [u8],
    wrong: Checked,
) -> Result<u32, Refusal>
    requires { Fit header.now × (wrong ≡ first_wrong list.now header.now file) }
    ensures { came result area.new ≡ import_past list.now header.now area.old wrong }
{
    match wrong {
        Ok(_) => write(list, header, area),
        Err(k) => Err(Refusal {
            number: WRONG_LINE,
            value: line(k),
        }),
    }
}

// The table of a list, under a header block and beside a profile file of such a length.
pub fn import(list: &[u8], header: &[u8], file: usize, area: &mut [u8]) -> Result<u32, Refusal>
    ensures { came result area.new ≡ imported list.now header.now file area.old }
{
    match fit(header) {
        Some(block) => {
            let wrong = judging::first_wrong(list, block, file);
            import_past(list, block, file, area, wrong)
        }
        None => Err(Refusal {
            number: listing::UNSOUND,
            value: 0,
        }),
    }
}
