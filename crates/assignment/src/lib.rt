#![tactic(auto)]
// SAR: the records are looked at first, and written when the answer stands.
pub mod assigning;
pub mod looking;
pub mod naming;
pub mod owned;

use choices::plan::Sar;
use choices::types::AssignmentType;

// Whom a SAR without a fault means: the User-Name's records that are not in state 0; or the records of the named identities, the first of which stands
// at this place.
#[derive(Clone, Copy)]
pub enum Meant {
    Owned,
    Listed(usize),
}

// What a SAR says besides its identities: its numbers, its server name, the User-Name (empty where none is given).
#[derive(Clone, Copy)]
pub struct Said<'a> {
    pub numbers: Sar,
    pub server: &'a [u8],
    pub user: &'a [u8],
}

// What each record is asked: whether it is this owner's, whether it stores this server name, whether its state suits the type.
#[derive(Clone, Copy)]
pub struct Asks<'a> {
    pub owner: &'a [u8],
    pub server: &'a [u8],
    pub kind: AssignmentType,
}
