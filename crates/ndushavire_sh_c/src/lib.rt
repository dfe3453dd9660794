#![tactic(auto)]
// What C calls of the Sh server: the library's one function by its name there, with the same clause.
ghost use Rattle.ndushavire_sh.specs.Lent.{lent};
ghost use Rattle.ndushavire_sh.specs.Promise.{ShDecidePromise};

#[unsafe(no_mangle)]
pub extern "C" fn ndushavire_sh_decide(
    request: &[u8],
    table: &[u8],
    profile: &[u8],
    answer: &mut [u8],
    peer: u32,
) -> u64
    ensures { ShDecidePromise
        (lent request.now table.now profile.now answer.old peer)
        result answer.new }
{
    ndushavire_sh::ndushavire_sh_decide(request, table, profile, answer, peer)
}
