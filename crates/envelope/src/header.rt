// The answer's header.
ghost use Rattle.std.specs.Prelude.{◌≡◌, ◌≤◌, length};
ghost use Rattle.octets.specs.Run.{Wrote};
ghost use Rattle.envelope.specs.Header.{flags_of, start_bytes, header_bytes};

use diameter::message;
use diameter::message::{E_BIT, P_BIT};
use reading::Outcome;

// "flags P as received and E exactly for 3xxx, no others"
fn flags_of(flags: u8, res: Outcome) -> u8
    ensures { result ≡ flags_of flags res }
{
    if reading::number_of(res) / 1000 == 3 {
        return flags / P_BIT % 2 * P_BIT + E_BIT;
    }
    flags / P_BIT % 2 * P_BIT
}

// Version 1, the length, the flags.
fn put_start(out: &mut [u8], n: usize, flags: u8)
    requires { 5 ≤ length out.old }
    ensures { Wrote (start_bytes n flags) out.old out.new 5 }
{
    out[message::VERSION_AT] = message::VERSION;
    out[1..4].copy_from_slice(&n.to_be_bytes()[5..]);
    out[message::FLAGS_AT] = flags;
}

// The header of an answer of n bytes: command, application and both identifiers as received.
pub fn put_header(out: &mut [u8], req: &[u8], res: Outcome, n: usize)
    requires { (20 ≤ length out.old) × (20 ≤ length req.now) }
    ensures { Wrote (header_bytes req.now res n) out.old out.new 20 }
{
    put_start(out, n, flags_of(req[message::FLAGS_AT], res));
    out[message::COMMAND_AT..message::BODY].copy_from_slice(
        &req[message::COMMAND_AT..message::BODY],
    );
}
