// 02 [13]: "first lists every AVP's place": the list goes with the request whose it is.
ghost use Rattle.std.specs.Prelude.{◌≡◌};
ghost use Rattle.plain_reading.specs.Listed.{places_of};

// A request, and places in a list, whatever they are: what is read by them asks no more of the list.
#[derive(Clone, Copy)]
pub struct Places<'a, 'l> {
    pub req: &'a [u8],
    pub list: &'l [u16],
}

// A request, and its AVPs' places in the list that was lent.
#[derive(Clone, Copy)]
pub struct Listed<'a, 'l> {
    pub req: &'a [u8],
    pub list: &'l [u16],
    pub ghost whole: { list.now ≡ places_of req.now },
}
