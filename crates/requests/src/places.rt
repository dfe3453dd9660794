// What stands at the places that reading a request found.
ghost use Rattle.std.specs.Prelude.{◌≡◌, ◌≤◌, ◌<◌, length};
ghost use Rattle.diameter.specs.AvpAt.{part_at};
ghost use Rattle.reading.specs.Kinds.{kinds};
ghost use Rattle.requests.specs.Request.{given, value_if, data_seen, value_seen, member_seen};
ghost use Rattle.reading.specs.Places.{seen_of};

use reading::kinds;

// The number that the 4-byte AVP at a place holds, 0 where there is none: the definition `value_if` says so.
pub fn value_of_place(s: &[u8], place: usize) -> u32
    ensures { result ≡ value_if (part_at s.now place) }
{
    let Ok(a) = diameter::read_avp(s, place) else {
        return 0;
    };
    diameter::value_of(s, a)
}

// Whether an AVP of kind k came.
pub fn given(req: &[u8], places: [usize; kinds::KINDS], k: usize) -> bool
    requires { k < kinds }
    ensures { result ≡ given (seen_of req.now places) k }
{
    diameter::present_at(req, places[k])
}

// Its data, nothing where none came.
pub fn data_of(req: &[u8], places: [usize; kinds::KINDS], k: usize) -> &[u8]
    requires { k < kinds }
    ensures { (result.now ≡ data_seen (seen_of req.now places) k) × (length result.now ≤ length req.now) }
{
    diameter::data_at(req, places[k])
}

// Its number, 0 where none came.
pub fn value_of(req: &[u8], places: [usize; kinds::KINDS], k: usize) -> u32
    requires { k < kinds }
    ensures { result ≡ value_seen (seen_of req.now places) k }
{
    value_of_place(req, places[k])
}

// The data of the AVP in a group of kind k, nothing where none came.
pub fn member_of(req: &[u8], places: [usize; kinds::KINDS], k: usize) -> &[u8]
    requires { k < kinds }
    ensures { (result.now ≡ member_seen (seen_of req.now places) k) × (length result.now ≤ length req.now) }
{
    let group = diameter::span_at(req, places[k], req.len());
    diameter::part(req, diameter::span_at(req, group.from, group.end))
}
