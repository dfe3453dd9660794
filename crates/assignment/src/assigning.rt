// "SAR.": from what the request says to a plan.
ghost use Rattle.std.specs.Prelude.{◌≡◌, ◌≤◌, Ok};
ghost use Rattle.table.specs.SoundTable.{SoundTable};
ghost use Rattle.diameter.specs.Message.{body_of};
ghost use Rattle.requests.specs.Request.{identities};
ghost use Rattle.requests.specs.Identity.{places_from};
ghost use Rattle.choices.specs.Types.{is_removal};
ghost use Rattle.lookup.specs.Among.{Among};
ghost use Rattle.lookup.specs.Find.{block_found};
ghost use Rattle.assignment.specs.Assignment.{meant_by, find_all, user_known, owner_by, owned_survey, named_survey, assign_meant, assign};
ghost use Rattle.assignment.specs.Survey.{sar_of, found_survey};

use crate::{Asks, Meant, Said, looking, naming, owned};
use choices::giving;
use choices::plan::{Plan, Survey};
use record::fields;

impl Said<'_> {
    // "or a User-Name given, unknown"; the first record that was named is likely to have it.
    #[tactic(auto, using(lookup::proofs::Among::among_from, lookup::proofs::Among::among_to), unfolding(crate::specs::Assignment::user_known))]
    fn user_known(self, t: &[u8], count: usize, f: Option<u32>) -> bool
        requires { SoundTable t.now count × Among count f }
        ensures { result ≡ user_known t.now count self.entry.numbers.named self.entry.user.now }
    {
        if !self.numbers.named {
            return true;
        }
        match f {
            Some(k) => lookup::known_near(t, count, k, self.user),
            None => lookup::known_private(t, count, self.user),
        }
    }

    // All that are named, asked whether they are the User-Name's if one is given, else of the subscription of block `first`.
    #[tactic(auto, unfolding(crate::specs::Assignment::owner_by, table::specs::Named::private_at))]
    fn survey(self, t: &[u8], count: usize, req: &[u8], first: u32) -> Survey
        requires { SoundTable t.now count × (first ≤ count) }
        ensures { result
            ≡ found_survey t.now (owner_by t.now first self.entry.numbers.named self.entry.user.now) self.entry.server.now
            self.entry.numbers.kind (find_all t.now count (identities (body_of req.now))) }
    {
        let owner = if self.numbers.named {
            self.user
        } else {
            fields::private(blocks::block(t, first as usize))
        };
        let asks = Asks {
            owner,
            server: self.server,
            kind: self.numbers.kind,
        };
        naming::survey_all(t, count, req, asks)
    }

    // The plan where the identities begin at a place.
    fn plan_named(self, t: &[u8], count: usize, req: &[u8], place: usize) -> Plan
        requires { SoundTable t.now count ×
            (Ok (Meant.Listed place) ≡ meant_by (is_removal self.numbers.kind) self.numbers.named (places_from 20 (body_of req.now))) }
        ensures { result ≡ assign_meant t.now count (sar_of req.now self.entry.numbers self.entry.server.now self.entry.user.now) (Ok (Meant.Listed place)) }
    {
        let f = lookup::find_public(t, count, diameter::data_at(req, place));
        let first = lookup::block_found(f);
        let v = self.survey(t, count, req, first);
        let w = looking::also_known(v, self.user_known(t, count, f));
        self.numbers
            .plan(w.finding(self.numbers.kind), first, false)
    }

    // The plan where there are none, and a User-Name is given.
    fn plan_owned(self, t: &[u8], count: usize, req: &[u8]) -> Plan
        requires { SoundTable t.now count }
        ensures { result ≡ assign_meant t.now count (sar_of req.now self.entry.numbers self.entry.server.now self.entry.user.now) (Ok Meant.Owned) }
    {
        let asks = Asks {
            owner: self.user,
            server: self.server,
            kind: self.numbers.kind,
        };
        let v = owned::survey_owned(t, count, asks);
        let w = looking::also_known(v, self.user_known(t, count, None));
        self.numbers.plan(w.finding(self.numbers.kind), 0, true)
    }

    // The plan of a SAR.
    #[tactic(auto, unfolding(crate::specs::Assignment::assign, crate::specs::Assignment::assign_meant))]
    pub fn plan(self, t: &[u8], count: usize, req: &[u8]) -> Plan
        requires { SoundTable t.now count }
        ensures { result ≡ assign t.now count (sar_of req.now self.entry.numbers self.entry.server.now self.entry.user.now) }
    {
        let numbers = self.numbers;
        match naming::meant_by(req, numbers.kind.is_removal(), numbers.named) {
            Ok(Meant::Owned) => self.plan_owned(t, count, req),
            Ok(Meant::Listed(place)) => self.plan_named(t, count, req, place),
            Err(verdict) => Plan::reply_only(giving::faulty(verdict)),
        }
    }
}
