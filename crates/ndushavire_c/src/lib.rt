#![tactic(auto)]
// What C calls: each of the library's functions by its name there, with the same clause.
ghost use Rattle.requests.specs.Request.{under_cx};
ghost use Rattle.calling.specs.Lent.{lent};
ghost use Rattle.ndushavire.specs.Promise.{CheckPromise, CheckVectorsPromise, DecidePromise, ReportPromise, RowPromise};
ghost use Rattle.ndushavire.specs.Promise.{ForwardPromise, BackPromise, TakePromise, ExportPromise, ImportPromise, VersionPromise};

#[unsafe(no_mangle)]
pub extern "C" fn ndushavire_check(table: &[u8], profile: &[u8]) -> u64
    ensures { CheckPromise table.now profile.now result }
{
    ndushavire::ndushavire_check(table, profile)
}

#[unsafe(no_mangle)]
pub extern "C" fn ndushavire_check_vectors(vectors: &[u8]) -> u64
    ensures { CheckVectorsPromise vectors.now result }
{
    ndushavire::ndushavire_check_vectors(vectors)
}

#[unsafe(no_mangle)]
pub extern "C" fn ndushavire_decide(
    request: &[u8],
    table: &mut [u8],
    profile: &[u8],
    vectors: &mut [u8],
    answer: &mut [u8],
    peer: u32,
    features: u32,
) -> u64
    ensures { DecidePromise
        (lent request.now table.old profile.now vectors.old answer.old (under_cx peer features))
        result table.new vectors.new answer.new }
{
    ndushavire::ndushavire_decide(request, table, profile, vectors, answer, peer, features)
}

#[unsafe(no_mangle)]
pub extern "C" fn ndushavire_plain(
    request: &[u8],
    table: &mut [u8],
    profile: &[u8],
    vectors: &mut [u8],
    answer: &mut [u8],
    peer: u32,
    features: u32,
) -> u64
    ensures { DecidePromise
        (lent request.now table.old profile.now vectors.old answer.old (under_cx peer features))
        result table.new vectors.new answer.new }
{
    ndushavire::ndushavire_plain(request, table, profile, vectors, answer, peer, features)
}

#[unsafe(no_mangle)]
pub extern "C" fn ndushavire_report(
    requests: &[u8],
    table: &mut [u8],
    profile: &[u8],
    vectors: &mut [u8],
    answer: &mut [u8],
    report: &mut [u8],
    peer: u32,
    features: u32,
) -> u64
    ensures { ReportPromise
        (lent requests.now table.old profile.now vectors.old answer.old (under_cx peer features))
        report.old
        result table.new vectors.new answer.new report.new }
{
    ndushavire::ndushavire_report(
        requests, table, profile, vectors, answer, report, peer, features,
    )
}

#[unsafe(no_mangle)]
pub extern "C" fn ndushavire_forward(table: &mut [u8], profile: &[u8], issue: u32) -> u64
    ensures { ForwardPromise table.old profile.now issue result table.new }
{
    ndushavire::ndushavire_forward(table, profile, issue)
}

#[unsafe(no_mangle)]
pub extern "C" fn ndushavire_back(table: &mut [u8], profile: &[u8]) -> u64
    ensures { BackPromise table.old profile.now result table.new }
{
    ndushavire::ndushavire_back(table, profile)
}

#[unsafe(no_mangle)]
pub extern "C" fn ndushavire_take(area: &mut [u8], fresh: &[u8], profile: &[u8]) -> u64
    ensures { TakePromise area.old fresh.now profile.now result area.new }
{
    ndushavire::ndushavire_take(area, fresh, profile)
}

#[unsafe(no_mangle)]
pub extern "C" fn ndushavire_export(table: &[u8], profile: &[u8], list: &mut [u8]) -> u64
    ensures { ExportPromise table.now profile.now list.old result list.new }
{
    ndushavire::ndushavire_export(table, profile, list)
}

#[unsafe(no_mangle)]
pub extern "C" fn ndushavire_import(
    list: &[u8],
    header: &[u8],
    profile: &[u8],
    table: &mut [u8],
) -> u64
    ensures { ImportPromise list.now header.now profile.now table.old result table.new }
{
    ndushavire::ndushavire_import(list, header, profile, table)
}

#[unsafe(no_mangle)]
pub extern "C" fn ndushavire_row(
    requests: &[u8],
    table: &mut [u8],
    profile: &[u8],
    vectors: &mut [u8],
    answers: &mut [u8],
    words: &mut [u8],
    peer: u32,
    features: u32,
) -> u64
    ensures { RowPromise
        (lent requests.now table.old profile.now vectors.old answers.old (under_cx peer features))
        words.old
        result table.new vectors.new answers.new words.new }
{
    ndushavire::ndushavire_row(
        requests, table, profile, vectors, answers, words, peer, features,
    )
}

#[unsafe(no_mangle)]
pub extern "C" fn ndushavire_version() -> u32
    ensures { VersionPromise result }
{
    ndushavire::ndushavire_version()
}
