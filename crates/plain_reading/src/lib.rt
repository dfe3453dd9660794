#![tactic(auto)]
// Reading without cleverness: every AVP's place is listed, each rule of document 01 is tried in a pass of its own, and the fault that comes first decides.
mod listed;

ghost use Rattle.std.specs.Prelude.{◌≡◌, ◌&&◌, not, ◌≤◌, ◌<◌, length, take, drop, get_or};
ghost use Rattle.diameter.specs.AvpAt.{part_at, present};
ghost use Rattle.diameter.specs.Reader.{own_of, read_of, Here};
ghost use Rattle.reading.specs.Kinds.{row_of, use_in, is_unknown, is_needed};
ghost use Rattle.reading.specs.Places.{seen_of};
ghost use Rattle.requests.specs.Found.{Headed, Missed};
ghost use Rattle.requests.specs.Request.{header_fault, missing};
ghost use Rattle.plain_reading.specs.Listed.{most, places_of};
ghost use Rattle.plain_reading.specs.Broken.{is_named, is_sole, is_a, kind_at, came, other_length, bad_content, several_in, breaks_whole, breaks};
ghost use Rattle.plain_reading.specs.Passes.{pass_of, earlier, picked};
ghost use Rattle.plain_reading.specs.Plain.{blamed, taken_of, taken, plain_body, plain_read};
ghost use Rattle.plain_reading.specs.Read.{read_as};

use diameter::{Avp, codes, message};
pub use listed::{Listed, Places};
use octets::number;
use reading::{Content, Dialect, Use, Verdict, base, group, kinds};

// "Its list holds at most 2,046 places."
pub const MOST: usize = 2046;

// The rules that can be broken, by document 01's letters ((e) only skips); then that of RFC 6733, which a 260 can break.
#[derive(Clone, Copy)]
pub enum Letter {
    A,
    B,
    C,
    D,
    F,
    G,
    H,
    Newer,
}

// The number in the list, from 0 on, of the first AVP that breaks a rule. Where none does it is the list's length: so `earlier` needs no case for that.
#[derive(Clone, Copy)]
pub struct Broken {
    pub at: usize,
    pub letter: Letter,
}

// "Header, in order: version not 1, B5011; E bit set, B3008; command not 300 to 302, B3001; application not 16777216, B3007." 303 joined later.
pub fn header(req: &[u8], d: Dialect) -> Result<(), Verdict>
    requires { 20 ≤ length req.now }
    ensures { Headed result (header_fault d req.now) }
{
    let terms = d.terms;
    let spoken = (terms.application == codes::CX)
        & (reading::UAR <= d.command)
        & (d.command <= reading::MAR);
    if req[message::VERSION_AT] != message::VERSION {
        return Err(Verdict::of(base::UNSUPPORTED_VERSION));
    }
    if req[message::FLAGS_AT] / message::E_BIT % 2 == 1 {
        return Err(Verdict::of(base::INVALID_HDR_BITS));
    }
    if !spoken {
        return Err(Verdict::of(base::COMMAND_UNSUPPORTED));
    }
    if number::be32(req, message::APPLICATION_AT) != terms.application {
        return Err(Verdict::of(base::APPLICATION_UNSUPPORTED));
    }
    Ok(())
}

// Every AVP's place, up to the first whose length is faulty. Answers how many there are. By place: it steps over whole AVPs.
pub fn list(req: &[u8], room: &mut [u16; MOST]) -> usize
    requires { length req.now ≤ 16384 }
    ensures { (result ≤ most) × (take result room.new ≡ places_of req.now) }
{
    let mut n = 0;
    let mut at = message::BODY;
    while at < req.len() {
        room[n] = at as u16;
        n += 1;
        let Ok(a) = diameter::read_avp(req, at) else {
            return n;
        };
        at = a.next;
    }
    n
}

// The place of a number in the list.
pub fn place_at(list: &[u16], i: usize) -> usize
    requires { i < length list.now }
    ensures { result ≡ get_or list.now i 0 }
{
    list[i] as usize
}

// What the command makes of a kind: it knows none such; it names it; it names it, and "the rest come once".
fn unknown(u: Use) -> bool
    ensures { result ≡ is_unknown u }
{
    matches!(u, Use::Unknown)
}

fn named(u: Use) -> bool
    ensures { result ≡ is_named u }
{
    !matches!(u, Use::Unknown | Use::Unnamed)
}

fn sole(u: Use) -> bool
    ensures { result ≡ is_sole u }
{
    matches!(u, Use::Needed | Use::Optional)
}

// "a 4-byte kind of another length"
fn other_length(c: Content, req: &[u8], a: Avp) -> bool
    requires { Here req.now a }
    ensures { result ≡ other_length c (own_of req.now a) }
{
    match c {
        Content::Number(_, _) => a.len != a.head + 4,
        Content::Free | Content::Sized(_, _) | Content::Members(_) => false,
    }
}

// "bad content": a number or a length outside its limits, a group that is not as it must be.
fn bad_content(d: Dialect, c: Content, req: &[u8], a: Avp) -> bool
    requires { Here req.now a }
    ensures { result ≡ bad_content d c (own_of req.now a) }
{
    match c {
        Content::Free => false,
        Content::Number(least, most) => !(least..=most).contains(&diameter::value_of(req, a)),
        Content::Sized(least, most) => !(least..=most).contains(&(a.len - a.head)),
        Content::Members(g) => !group::gathers(d, g, req, a),
    }
}

// "RFC 6733, where 260 holds exactly one Vendor-Id": several, and otherwise as it must be.
fn several_in(d: Dialect, c: Content, req: &[u8], a: Avp) -> bool
    requires { Here req.now a }
    ensures { result ≡ several_in d c (own_of req.now a) }
{
    match c {
        Content::Free | Content::Number(_, _) | Content::Sized(_, _) => false,
        Content::Members(g) => matches!(
            group::group_fault(d, g, req, a),
            Err(base::AVP_OCCURS_TOO_MANY_TIMES)
        ),
    }
}

// (a) "length under 8, or under 12 with V, or past the end, or too few bytes left for the header: a length fault, B5014". Such an AVP is asked nothing
// else.
fn only_length(letter: Letter) -> bool
    ensures { result ≡ is_a letter }
{
    matches!(letter, Letter::A)
}

// Of two the one whose AVP comes first; of one AVP's the first.
fn earlier(x: Broken, y: Broken) -> Broken
    ensures { result ≡ earlier x y }
{
    if y.at < x.at { y } else { x }
}

// What a rule's fault comes to.
fn blame(letter: Letter, place: usize) -> Verdict
    ensures { result ≡ blamed letter place }
{
    match letter {
        Letter::A | Letter::G => Verdict::at(base::INVALID_AVP_LENGTH, place),
        Letter::B => Verdict::lacking(kinds::SESSION_ID),
        Letter::C => Verdict::at(base::INVALID_AVP_BITS, place),
        Letter::D => Verdict::at(base::AVP_UNSUPPORTED, place),
        Letter::F | Letter::Newer => Verdict::at(base::AVP_OCCURS_TOO_MANY_TIMES, place),
        Letter::H => Verdict::at(base::INVALID_AVP_VALUE, place),
    }
}

// Whether a kind is needed and has no AVP at its place.
fn lacks(req: &[u8], d: Dialect, k: usize, place: usize) -> bool
    ensures { result ≡ (is_needed (use_in d (row_of k)) && not (present (part_at req.now place))) }
{
    kinds::needed(kinds::use_in(d, kinds::row_of(k))) & !diameter::present_at(req, place)
}

// "the first missing AVP in the order below"
fn missing(req: &[u8], d: Dialect, places: [usize; kinds::KINDS]) -> Option<usize>
    ensures { Missed result (missing d (seen_of req.now places)) }
{
    (1..kinds::KINDS).find(|&k| lacks(req, d, k, places[k]))
}

impl<'a, 'l> Places<'a, 'l> {
    // The AVP of a number in the list, an error where its length is faulty.
    fn avp(&self, i: usize) -> Result<Avp, usize>
        requires { i < length self.now.list.now }
        ensures { let place = get_or self.now.list.now i 0 in result ≡ read_of place (drop place self.now.req.now) }
    {
        diameter::read_avp(self.req, place_at(self.list, i))
    }

    // The kind of the AVP of a number in the list, 0 where its length is faulty: so no kind that is named.
    fn kind_at(&self, i: usize) -> usize
        requires { i < length self.now.list.now }
        ensures { result ≡ kind_at (seen_of self.now.req.now self.now.list.now) i }
    {
        match self.avp(i) {
            Ok(a) => kinds::kind_of(self.req, a),
            Err(_) => 0,
        }
    }

    // Whether one of the first n AVPs is of a kind, at fault or not.
    fn came(&self, k: usize, n: usize) -> bool
        requires { n ≤ length self.now.list.now }
        ensures { result ≡ came (seen_of self.now.req.now self.now.list.now) k n }
    {
        (0..n).any(|i| self.kind_at(i) == k)
    }

    // "too often": one of the kinds that come once, with another of its kind before it.
    fn too_often(&self, u: Use, k: usize, i: usize) -> bool
        requires { i ≤ length self.now.list.now }
        ensures { result ≡ (is_sole u && came (seen_of self.now.req.now self.now.list.now) k i) }
    {
        sole(u) && self.came(k, i)
    }

    // Whether a whole AVP breaks a rule. (e) "known but not named in this command: skipped": so (d) asks of unknown kinds, (f) to (h) of named ones.
    // A rule stays a letter, not a closure: the letter also says which of two faults comes first and what a fault comes to.
    fn breaks_whole(&self, d: Dialect, i: usize, a: Avp, letter: Letter) -> bool
        requires { Here self.now.req.now a × (i ≤ length self.now.list.now) }
        ensures { result ≡ breaks_whole d (seen_of self.now.req.now self.now.list.now) i (own_of self.now.req.now a) letter }
    {
        let req = self.req;
        let k = kinds::kind_of(req, a);
        let row = kinds::row_of(k);
        let content = row.content;
        let u = kinds::use_in(d, row);
        match letter {
            // (a) is kept by a whole AVP.
            Letter::A => false,
            // (b) "the first AVP is no Session-Id: B5005 for Session-Id"
            Letter::B => (i == 0) & (k != kinds::SESSION_ID),
            // (c) "any of the five reserved flags: B3009"
            Letter::C => a.flags % diameter::P_FLAG != 0,
            // (d) "kind (vendor, code) unknown: with M B5001, else skipped"
            Letter::D => unknown(u) & (a.flags / diameter::M_FLAG % 2 == 1),
            // (f) "too often: B5009"
            Letter::F => self.too_often(u, k, i),
            // (g) "a 4-byte kind of another length: B5014"
            Letter::G => named(u) & other_length(content, req, a),
            // (h) "bad content: B5004"
            Letter::H => named(u) & bad_content(d, content, req, a),
            // "B5009 with the whole 260 as Failed-AVP under RFC 6733 only"
            Letter::Newer => named(u) & several_in(d, content, req, a),
        }
    }

    // Whether the AVP of a number in the list breaks a rule.
    fn breaks(&self, d: Dialect, letter: Letter, i: usize) -> bool
        requires { i < length self.now.list.now }
        ensures { result ≡ breaks d (seen_of self.now.req.now self.now.list.now) letter i }
    {
        match self.avp(i) {
            Ok(a) => self.breaks_whole(d, i, a, letter),
            Err(_) => only_length(letter),
        }
    }

    // A rule's pass over the list.
    fn pass(&self, d: Dialect, letter: Letter) -> Broken
        ensures { result ≡ pass_of d (seen_of self.now.req.now self.now.list.now) letter }
    {
        let n = self.list.len();
        for i in 0..n {
            if self.breaks(d, letter, i) {
                return Broken { at: i, letter };
            }
        }
        Broken { at: n, letter }
    }

    // The fault that comes first: by its AVP, then by its letter.
    fn first_fault(&self, d: Dialect) -> Broken
        ensures { result ≡ picked d (seen_of self.now.req.now self.now.list.now) }
    {
        let mut first = self.pass(d, Letter::A);
        for letter in [
            Letter::B,
            Letter::C,
            Letter::D,
            Letter::F,
            Letter::G,
            Letter::H,
            Letter::Newer,
        ] {
            first = earlier(first, self.pass(d, letter));
        }
        first
    }

    // The place of the last AVP of a kind that the command names: the message's length where there is none, which is no AVP's place.
    fn place_of(&self, d: Dialect, k: usize) -> usize
        ensures { let avps = seen_of self.now.req.now self.now.list.now in
            part_at self.now.req.now result ≡ taken_of d avps (length self.now.list.now) k }
    {
        if named(kinds::use_in(d, kinds::row_of(k))) {
            for i in (0..self.list.len()).rev() {
                if self.kind_at(i) == k {
                    return place_at(self.list, i);
                }
            }
        }
        self.req.len()
    }

    // The same for each kind.
    fn taken(&self, d: Dialect) -> [usize; kinds::KINDS]
        ensures { let avps = seen_of self.now.req.now self.now.list.now in
            seen_of self.now.req.now result ≡ taken d avps (length self.now.list.now) }
    {
        let mut places = [0; kinds::KINDS];
        for (k, place) in places.iter_mut().enumerate() {
            *place = self.place_of(d, k);
        }
        places
    }

    // "Then AVPs by position; the first fault decides." "After the walk, the first missing AVP in the order below: B5005."
    fn read_body(&self, d: Dialect) -> Result<[usize; kinds::KINDS], Verdict>
        ensures { read_as self.now.req.now result ≡ plain_body d self.now.req.now self.now.list.now }
    {
        let first = self.first_fault(d);
        let at = first.at;
        if at < self.list.len() {
            return Err(blame(first.letter, place_at(self.list, at)));
        }
        let places = self.taken(d);
        match missing(self.req, d, places) {
            Some(k) => Err(Verdict::lacking(k)),
            None => Ok(places),
        }
    }

    // A request read by a list, whatever stands in it: the places of its AVPs by their kinds, or the first fault.
    pub fn read(&self, d: Dialect) -> Result<[usize; kinds::KINDS], Verdict>
        requires { 20 ≤ length self.now.req.now }
        ensures { read_as self.now.req.now result ≡ plain_read d self.now.req.now self.now.list.now }
    {
        header(self.req, d)?;
        self.read_body(d)
    }
}

impl<'a, 'l> Listed<'a, 'l> {
    // The list of a request's places, in what is lent for it.
    pub fn new(req: &'a [u8], room: &'l mut [u16; MOST]) -> Listed<'a, 'l>
        requires { length req.now ≤ 16384 }
        ensures { result.req.now ≡ req.now }
    {
        let n = list(req, room);
        Listed {
            req,
            list: &room[..n],
        }
    }

    // The same without what is known of the list.
    fn places(&self) -> Places<'a, 'l>
        ensures { (result.req.now ≡ self.now.req.now) × (result.list.now ≡ self.now.list.now) }
    {
        Places {
            req: self.req,
            list: self.list,
        }
    }

    // The AVP of a number in the list, an error where its length is faulty.
    pub fn avp(&self, i: usize) -> Result<Avp, usize>
        requires { i < length self.now.list.now }
        ensures { let place = get_or self.now.list.now i 0 in result ≡ read_of place (drop place self.now.req.now) }
    {
        self.places().avp(i)
    }

    // A request read by its list: the places of its AVPs by their kinds, or the first fault.
    pub fn read(&self, d: Dialect) -> Result<[usize; kinds::KINDS], Verdict>
        requires { 20 ≤ length self.now.req.now }
        ensures { read_as self.now.req.now result ≡ plain_read d self.now.req.now self.now.list.now }
    {
        self.places().read(d)
    }
}
