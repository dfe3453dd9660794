// The calls, a function for each entry: it lends the slices of the case, copies of those that the entry writes to, and tells of the outcome.
use streams::case::Case;
use streams::outcome;

fn check(rt: &impl Print, case: &Case) -> bool {
    let word = ndushavire::ndushavire_check(case.slice(0), case.slice(1));
    outcome::put_all(rt, word, &[])
}

fn decide(rt: &impl Print, case: &Case) -> bool {
    let mut table = case.lend(1);
    let mut vectors = case.lend(3);
    let mut buffer = case.lend(4);
    let word = ndushavire::ndushavire_decide(
        case.slice(0),
        table.bytes(),
        case.slice(2),
        vectors.bytes(),
        buffer.bytes(),
        case.number(5),
        case.number(6),
    );
    outcome::put_all(rt, word, &[&table, &vectors, &buffer])
}

fn check_vectors(rt: &impl Print, case: &Case) -> bool {
    let word = ndushavire::ndushavire_check_vectors(case.slice(0));
    outcome::put_all(rt, word, &[])
}

fn report(rt: &impl Print, case: &Case) -> bool {
    let mut table = case.lend(1);
    let mut vectors = case.lend(3);
    let mut buffer = case.lend(4);
    let mut area = case.lend(5);
    let word = ndushavire::ndushavire_report(
        case.slice(0),
        table.bytes(),
        case.slice(2),
        vectors.bytes(),
        buffer.bytes(),
        area.bytes(),
        case.number(6),
        case.number(7),
    );
    outcome::put_all(rt, word, &[&table, &vectors, &buffer, &area])
}

fn forward(rt: &impl Print, case: &Case) -> bool {
    let mut table = case.lend(0);
    let word = ndushavire::ndushavire_forward(table.bytes(), case.slice(1), case.number(2));
    outcome::put_all(rt, word, &[&table])
}

fn back(rt: &impl Print, case: &Case) -> bool {
    let mut table = case.lend(0);
    let word = ndushavire::ndushavire_back(table.bytes(), case.slice(1));
    outcome::put_all(rt, word, &[&table])
}

fn take(rt: &impl Print, case: &Case) -> bool {
    let mut area = case.lend(0);
    let word = ndushavire::ndushavire_take(area.bytes(), case.slice(1), case.slice(2));
    outcome::put_all(rt, word, &[&area])
}

fn export(rt: &impl Print, case: &Case) -> bool {
    let mut list = case.lend(2);
    let word = ndushavire::ndushavire_export(case.slice(0), case.slice(1), list.bytes());
    outcome::put_all(rt, word, &[&list])
}

fn import(rt: &impl Print, case: &Case) -> bool {
    let mut table = case.lend(3);
    let word = ndushavire::ndushavire_import(
        case.slice(0),
        case.slice(1),
        case.slice(2),
        table.bytes(),
    );
    outcome::put_all(rt, word, &[&table])
}

fn sh_decide(rt: &impl Print, case: &Case) -> bool {
    let mut buffer = case.lend(3);
    let word = ndushavire_sh::ndushavire_sh_decide(
        case.slice(0),
        case.slice(1),
        case.slice(2),
        buffer.bytes(),
        case.number(4),
    );
    outcome::put_all(rt, word, &[&buffer])
}

// Calls an entry by its number in the streams.
pub fn call(rt: &impl Print, entry: u8, case: &Case) -> bool {
    match entry {
        1 => check(rt, case),
        2 => decide(rt, case),
        3 => check_vectors(rt, case),
        4 => report(rt, case),
        5 => forward(rt, case),
        6 => back(rt, case),
        7 => take(rt, case),
        8 => export(rt, case),
        9 => import(rt, case),
        10 => sh_decide(rt, case),
        _ => false,
    }
}
