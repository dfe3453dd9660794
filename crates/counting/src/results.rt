// "for each command (300 to 303, the rest as one) and each result, B and X apart": the rows and the columns of a report.
ghost use Rattle.std.specs.Prelude.{◌≡◌, ◌<◌, ◌≤◌};
ghost use Rattle.counting.specs.Results.{base_results, experimental_results, index_in, command_row, column_of};
ghost use Rattle.counting.specs.Counting.{Listed};

use reading::{Outcome, base, experimental};

// The columns of X come after those of B.
const EXPERIMENTAL_AT: usize = 13;

// The row of a command, and of every other the last.
#[tactic(auto, using(crate::proofs::Columns::row_other), unfolding(crate::specs::Results::command_row))]
pub fn command_row(command: usize) -> usize
    ensures { (result ≡ command_row command) × (result ≤ 4) }
{
    match command {
        reading::UAR => 0,
        reading::SAR => 1,
        reading::LIR => 2,
        reading::MAR => 3,
        _ => 4,
    }
}

// 13 is no column: `index_in` says so of a number that is not in the list, and `Listed` leaves such a number out.
#[tactic(auto, using(crate::proofs::Columns::base_none), unfolding(crate::specs::Results::index_in, crate::specs::Results::base_results))]
fn base_column(n: u32) -> usize
    ensures { (result ≡ index_in n base_results) × (result ≤ 13) }
{
    match n {
        base::SUCCESS => 0,
        base::COMMAND_UNSUPPORTED => 1,
        base::APPLICATION_UNSUPPORTED => 2,
        base::INVALID_HDR_BITS => 3,
        base::INVALID_AVP_BITS => 4,
        base::AVP_UNSUPPORTED => 5,
        base::AUTHORIZATION_REJECTED => 6,
        base::INVALID_AVP_VALUE => 7,
        base::MISSING_AVP => 8,
        base::AVP_OCCURS_TOO_MANY_TIMES => 9,
        base::UNSUPPORTED_VERSION => 10,
        base::UNABLE_TO_COMPLY => 11,
        base::INVALID_AVP_LENGTH => 12,
        _ => 13,
    }
}

// 12 is no column, likewise.
#[tactic(auto, using(crate::proofs::Columns::experimental_none), unfolding(crate::specs::Results::index_in, crate::specs::Results::experimental_results))]
fn experimental_column(n: u32) -> usize
    ensures { (result ≡ index_in n experimental_results) × (result ≤ 12) }
{
    match n {
        experimental::FIRST_REGISTRATION => 0,
        experimental::SUBSEQUENT_REGISTRATION => 1,
        experimental::UNREGISTERED_SERVICE => 2,
        experimental::SERVER_NAME_NOT_STORED => 3,
        experimental::USER_UNKNOWN => 4,
        experimental::IDENTITIES_DONT_MATCH => 5,
        experimental::IDENTITY_NOT_REGISTERED => 6,
        experimental::ROAMING_NOT_ALLOWED => 7,
        experimental::IDENTITY_ALREADY_REGISTERED => 8,
        experimental::AUTH_SCHEME_NOT_SUPPORTED => 9,
        experimental::IN_ASSIGNMENT_TYPE => 10,
        experimental::FEATURE_UNSUPPORTED => 11,
        _ => 12,
    }
}

// The column of a result that has one.
pub fn column_of(res: Outcome) -> usize
    requires { Listed res }
    ensures { (result ≡ column_of res) × (result < 25) }
{
    match res {
        Outcome::Base(n) => base_column(n),
        Outcome::Experimental(n) => EXPERIMENTAL_AT + experimental_column(n),
    }
}
