// What a buffer holds before a call: byte i is byte i + fill of a fixed noise.
ghost use Rattle.std.specs.Prelude.{◌≤◌, length};

// "byte n of the noise is the top byte of the 32-bit product n * 2654435761"
fn byte(n: u32) -> u8 {
    n.wrapping_mul(2654435761).to_be_bytes()[0]
}

pub fn fill(out: &mut [u8], fill: u8)
    requires { length out.old ≤ 65536 }
{
    for (i, b) in out.iter_mut().enumerate() {
        *b = byte(i as u32 + u32::from(fill));
    }
}
