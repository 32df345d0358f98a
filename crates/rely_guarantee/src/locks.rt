ghost use Rattle.std.specs.Prelude.{◌≡◌, ◌↔◌, ◌≢◌, ◌⊎◌, ◌<◌, ◌+◌, ◌-◌, ◌++◌, ◌∷◌, [], ℕ, List, Option, Some, None, IsSome, IsTrue, All, Contains, OnOk};
ghost use Rattle.ost_types.specs.declared.object.ObjName.{ObjName};
ghost use Rattle.rely_guarantee.specs.declared.books.Claim.{Claim};
ghost use Rattle.rely_guarantee.specs.declared.books.Hold.{Hold};
ghost use Rattle.rely_guarantee.specs.declared.books.Pending.{Pending};
ghost use Rattle.rely_guarantee.specs.declared.books.Pin.{Pin};
ghost use Rattle.std.specs.Vec.{vec_len, vec_capacity};
ghost use Rattle.rely_guarantee.specs.declared.books.Share.{Share};
ghost use Rattle.rely_guarantee.specs.declared.books.Want.{Want};
ghost use Rattle.rely_guarantee.specs.Books.{books_of, Free, Frees, Granted, HasGrantRoom, Agrees, Spared, Keeps};
ghost use Rattle.fs_trait.specs.Count.{last};
ghost use Rattle.rely_guarantee.specs.Exact.{IsGivenUp, NoNewShares, lock_taken};
ghost use Rattle.rely_guarantee.specs.Pinning.{with_pin, without};
ghost use Rattle.rely_guarantee.specs.Claiming.{of_others};

use crate::{Books, Claim, Entry, Event, Hold, Pending, Pin, Share, Want, Wants};
use ost_types::{Name, NoMemory, ObjName};

/// Whether nobody else holds the lock.
pub(crate) fn is_free(lock: Option<u8>, who: u8) -> bool
    ensures { IsTrue result ↔ Free lock who }
{
    match lock {
        Some(holder) => holder == who,
        None => true,
    }
}

fn only_of(shares: &[Share], lane: u8) -> bool
    ensures { IsTrue result ↔ All (λ x. x.lane ≡ lane) shares.now }
{
    shares.iter().all(|x| x.lane == lane)
}

/// Gives a lock up, if the lane has it.
fn given_up(lock: Option<u8>, lane: u8) -> Option<u8>
    ensures others { (x : ℕ) → x ≢ lane → lock ≡ Some x → result ≡ Some x }
    ensures no_more { (x : ℕ) → result ≡ Some x → lock ≡ Some x }
    ensures given_up { IsGivenUp lane lock result }
{
    match lock {
        Some(holder) => if holder == lane { None } else { Some(holder) },
        None => None,
    }
}

fn give_up_shares(shares: &mut Vec<Share>, lane: u8)
    ensures kept { (x : Share) → x.lane ≢ lane → Contains shares.old.items x → Contains shares.new.items x }
    ensures no_more { (x : Share) → Contains shares.new.items x → Contains shares.old.items x }
    ensures given_up { (x : Share) → Contains shares.new.items x → x.lane ≢ lane }
{
    shares.retain(|x| x.lane != lane);
}

fn give_up_holds(holds: &mut Vec<Hold>, lane: u8)
    ensures { (x : Hold) → x.lane ≢ lane → Contains holds.old.items x → Contains holds.new.items x }
{
    holds.retain(|x| x.lane != lane);
}

fn give_up_wants(wants: &mut Vec<Want>, lane: u8)
    ensures { (x : Want) → x.lane ≢ lane → Contains wants.old.items x → Contains wants.new.items x }
{
    wants.retain(|x| x.lane != lane);
}

fn give_up_pins(pins: &mut Vec<Pin>, lane: u8)
    ensures left { pins.new.items ≡ without lane pins.old.items }
    ensures kept { (x : Pin) → x.lane ≢ lane → Contains pins.old.items x → Contains pins.new.items x }
    ensures no_more { (x : Pin) → Contains pins.new.items x → Contains pins.old.items x }
{
    pins.retain(|x| x.lane != lane);
}

fn give_up_claims(claims: &mut Vec<Claim>, lane: u8)
    ensures left { claims.new.items ≡ of_others lane claims.old.items }
    ensures kept { (x : Claim) → x.lane ≢ lane → Contains claims.old.items x → Contains claims.new.items x }
    ensures no_more { (x : Claim) → Contains claims.new.items x → Contains claims.old.items x }
{
    claims.retain(|x| x.lane != lane);
}

/// Takes a lock.
fn taken(lock: Option<u8>, wanted: bool, lane: u8) -> Option<u8>
    ensures wanted { IsTrue wanted → result ≡ Some lane }
    ensures kept { (IsTrue wanted → Free lock lane) → (x : ℕ) → lock ≡ Some x → result ≡ Some x }
    ensures no_more { (x : ℕ) → result ≡ Some x → (lock ≡ Some x) ⊎ (IsTrue wanted × (x ≡ lane)) }
    ensures value { result ≡ lock_taken wanted lane lock }
{
    if wanted { Some(lane) } else { lock }
}

fn has_share(shares: &[Share], share: &Share) -> bool
    ensures { IsTrue result → Contains shares.now share.now }
{
    shares.contains(share)
}

fn add_share(shares: &mut Vec<Share>, wanted: bool, actor: u8, lane: u8) -> bool
    ensures done { vec_len shares.old < vec_capacity shares.old → IsTrue result }
    ensures wanted { IsTrue result → IsTrue wanted → Contains shares.new.items (record { actor = actor; lane = lane }) }
    ensures kept { (x : Share) → Contains shares.old.items x → Contains shares.new.items x }
    ensures no_more { (x : Share) → Contains shares.new.items x → Contains shares.old.items x ⊎ (IsTrue wanted × (x.lane ≡ lane)) }
{
    let share = Share { actor, lane };
    if wanted && !has_share(shares, &share) {
        return shares.push(share).is_ok();
    }
    true
}

fn add_hold(holds: &mut Vec<Hold>, wanted: Option<u8>, lane: u8) -> bool
    ensures done { vec_len holds.old < vec_capacity holds.old → IsTrue result }
    ensures wanted { IsTrue result → (p : ℕ) → wanted ≡ Some p → Contains holds.new.items (record { lane = lane; place = p }) }
    ensures kept { (x : Hold) → Contains holds.old.items x → Contains holds.new.items x }
{
    match wanted {
        Some(place) => holds.push(Hold { lane, place }).is_ok(),
        None => true,
    }
}

fn add_pin(pins: &mut Vec<Pin>, wanted: Option<ObjName>, lane: u8) -> bool
    ensures done { vec_len pins.old < vec_capacity pins.old → IsTrue result }
    ensures wanted { IsTrue result → (o : ObjName) → wanted ≡ Some o → Contains pins.new.items (record { lane = lane; object = o }) }
    ensures kept { (x : Pin) → Contains pins.old.items x → Contains pins.new.items x }
    ensures no_more { (x : Pin) → Contains pins.new.items x → Contains pins.old.items x ⊎ (IsSome wanted × (x.lane ≡ lane)) }
    ensures added { IsTrue result → pins.new.items ≡ with_pin wanted lane pins.old.items }
{
    match wanted {
        Some(object) => pins.push(Pin { lane, object }).is_ok(),
        None => true,
    }
}

impl Books {
    /// Whether the lane may have what it asks for.
    pub(crate) fn frees(&self, wants: &Wants, lane: u8) -> bool
        ensures { IsTrue result ↔ Frees wants.now lane (books_of self.now) }
    {
        (!wants.exclusive || self.frees_exclusive(lane))
            && (!wants.turn || self.frees_turn(lane))
            && (!(wants.shared || wants.pin.is_some()) || is_free(self.exclusive, lane))
            && (!wants.sysroot || is_free(self.sysroot, lane))
            && (wants.hold.is_none() || is_free(self.turn, lane))
    }

    fn frees_exclusive(&self, lane: u8) -> bool
        ensures { IsTrue result ↔ (Free self.now.exclusive lane × Free self.now.turn lane × All (λ x. x.lane ≡ lane) self.now.shared.items) }
    {
        self.frees_turn(lane) && only_of(&self.shared, lane)
    }

    pub(crate) fn frees_turn(&self, lane: u8) -> bool
        ensures { IsTrue result ↔ (Free self.now.exclusive lane × Free self.now.turn lane) }
    {
        is_free(self.exclusive, lane) && is_free(self.turn, lane)
    }

    /// What is pinned.
    pub fn pins(&self) -> &[Pin]
        ensures { result.now ≡ self.now.pins.items }
    {
        &self.pins
    }

    /// Room for one more pin.
    pub(crate) fn make_pin_room(&mut self) -> Result<(), NoMemory>
        ensures same { self.new ≡ record self.old { pins = self.new.pins } }
        ensures items { self.new.pins.items ≡ self.old.pins.items }
        ensures room { OnOk result (vec_len self.new.pins < vec_capacity self.new.pins) }
    {
        self.pins.reserve(1)?;
        Ok(())
    }

    /// Room for all that a lane may ask for at once.
    pub(crate) fn make_grant_room(&mut self) -> Result<(), NoMemory>
        ensures same { self.new ≡ record self.old { shared = self.new.shared; holds = self.new.holds; pins = self.new.pins } }
        ensures items { (self.new.shared.items ≡ self.old.shared.items) × (self.new.holds.items ≡ self.old.holds.items) × (self.new.pins.items ≡ self.old.pins.items) }
        ensures room { OnOk result (HasGrantRoom self.new) }
    {
        self.shared.reserve(1)?;
        self.holds.reserve(1)?;
        self.make_pin_room()
    }

    /// Gives the lane what it asks for, which takes no memory where there is room for it.
    pub(crate) fn grant(&mut self, wants: &Wants, actor: u8, lane: u8) -> bool
        requires { Frees wants.now lane (books_of self.old) }
        ensures done { HasGrantRoom self.old → IsTrue result }
        ensures same { self.new ≡ record self.old { shared = self.new.shared; exclusive = self.new.exclusive; turn = self.new.turn; sysroot = self.new.sysroot; holds = self.new.holds; pins = self.new.pins } }
        ensures granted { IsTrue result → Granted wants.now actor lane (books_of self.new) }
        ensures spared { Spared actor lane (books_of self.old) (books_of self.new) }
        ensures keeps { Keeps lane (books_of self.old) (books_of self.new) }
        ensures shared { (x : Share) → Contains self.new.shared.items x → Contains self.old.shared.items x ⊎ (x.lane ≡ lane) }
        ensures pinned { IsTrue result → self.new.pins.items ≡ with_pin wants.now.pin lane self.old.pins.items }
        ensures taken { (self.new.turn ≡ lock_taken wants.now.turn lane self.old.turn) × (self.new.exclusive ≡ lock_taken wants.now.exclusive lane self.old.exclusive) × (self.new.sysroot ≡ lock_taken wants.now.sysroot lane self.old.sysroot) }
        ensures agrees { Agrees (books_of self.old) → Agrees (books_of self.new) }
    {
        self.exclusive = taken(self.exclusive, wants.exclusive, lane);
        self.turn = taken(self.turn, wants.turn, lane);
        self.sysroot = taken(self.sysroot, wants.sysroot, lane);
        let shared = add_share(&mut self.shared, wants.shared, actor, lane);
        let held = add_hold(&mut self.holds, wants.hold, lane);
        let pinned = add_pin(&mut self.pins, wants.pin, lane);
        shared && held && pinned
    }

    /// Gives up the lock of those that store, if the lane has it.
    pub(crate) fn stop_storing(&mut self, lane: u8)
        ensures same { self.new ≡ record self.old { shared = self.new.shared } }
        ensures kept { (x : Share) → x.lane ≢ lane → Contains self.old.shared.items x → Contains self.new.shared.items x }
        ensures no_more { NoNewShares self.old self.new }
        ensures given_up { (x : Share) → Contains self.new.shared.items x → x.lane ≢ lane }
    {
        give_up_shares(&mut self.shared, lane);
    }

    /// Gives up all that a lane holds.
    pub(crate) fn release(&mut self, actor: u8, lane: u8)
        ensures same { self.new ≡ record self.old { shared = self.new.shared; exclusive = self.new.exclusive; turn = self.new.turn; sysroot = self.new.sysroot; holds = self.new.holds; wants = self.new.wants; pins = self.new.pins; claims = self.new.claims } }
        ensures given_up { IsGivenUp lane self.old.turn self.new.turn × IsGivenUp lane self.old.exclusive self.new.exclusive × IsGivenUp lane self.old.sysroot self.new.sysroot }
        ensures shared { NoNewShares self.old self.new }
        ensures pins { self.new.pins.items ≡ without lane self.old.pins.items }
        ensures claims { self.new.claims.items ≡ of_others lane self.old.claims.items }
        ensures no_more { (x : Claim) → Contains self.new.claims.items x → Contains self.old.claims.items x }
        ensures spared { Spared actor lane (books_of self.old) (books_of self.new) }
        ensures agrees { Agrees (books_of self.old) → Agrees (books_of self.new) }
    {
        self.exclusive = given_up(self.exclusive, lane);
        self.turn = given_up(self.turn, lane);
        self.sysroot = given_up(self.sysroot, lane);
        give_up_shares(&mut self.shared, lane);
        give_up_holds(&mut self.holds, lane);
        give_up_wants(&mut self.wants, lane);
        give_up_pins(&mut self.pins, lane);
        give_up_claims(&mut self.claims, lane);
    }

    /// Room for one more entry of the history.
    pub(crate) fn make_room(&mut self) -> Result<(), NoMemory>
        ensures same { self.new ≡ record self.old { history = self.new.history } }
        ensures items { self.new.history.items ≡ self.old.history.items }
        ensures more { vec_len self.old.history < vec_capacity self.old.history → vec_len self.new.history < vec_capacity self.new.history }
        ensures room { OnOk result (vec_len self.new.history < vec_capacity self.new.history) }
    {
        self.history.reserve(1)?;
        Ok(())
    }

    /// Room for one more claim.
    pub(crate) fn make_claim_room(&mut self) -> Result<(), NoMemory>
        ensures same { self.new ≡ record self.old { claims = self.new.claims } }
        ensures items { self.new.claims.items ≡ self.old.claims.items }
        ensures room { OnOk result (vec_len self.new.claims < vec_capacity self.new.claims) }
    {
        self.claims.reserve(1)?;
        Ok(())
    }

    /// The checkout of that name is the lane's.
    pub(crate) fn note_claim(&mut self, lane: u8, name: Name) -> bool
        ensures done { vec_len self.old.claims < vec_capacity self.old.claims → IsTrue result }
        ensures same { self.new ≡ record self.old { claims = self.new.claims } }
        ensures added { IsTrue result → self.new.claims.items ≡ self.old.claims.items ++ record { lane = lane; name = name } ∷ [] }
    {
        self.claims.push(Claim { lane, name }).is_ok()
    }

    /// The lane's change is published, or may be.
    pub(crate) fn publish(&mut self, lane: u8, command: u32, event: Event, owed: u64)
        ensures { self.new ≡ record self.old { turn = Some lane; pending = Some (record { lane = lane; command = command; event = event }); gone = 0; owed = owed } }
    {
        self.turn = Some(lane);
        self.pending = Some(Pending {
            lane,
            command,
            event,
        });
        self.gone = 0;
        self.owed = owed;
    }

    /// One call less is owed.
    pub(crate) fn pay(&mut self)
        ensures { self.new ≡ record self.old { owed = self.old.owed - 1 } }
    {
        self.owed = self.owed.saturating_sub(1);
    }

    /// So too, and one object more is removed.
    pub(crate) fn pay_removal(&mut self)
        ensures { self.old.gone < last → self.new ≡ record self.old { owed = self.old.owed - 1; gone = self.old.gone + 1 } }
    {
        self.pay();
        self.gone = self.gone.saturating_add(1);
    }

    /// The pending change is acknowledged at this moment.
    pub(crate) fn acknowledge(&mut self, moment: u64) -> bool
        ensures done { (p : Pending) → self.old.pending ≡ Some p → vec_len self.old.history < vec_capacity self.old.history → IsTrue result }
        ensures same { self.new ≡ record self.old { history = self.new.history; pending = None; owed = 0 } }
        ensures entry { IsTrue result → (p : Pending) → self.old.pending ≡ Some p → self.new.history.items ≡ self.old.history.items ++ record { lane = p.lane; command = p.command; event = p.event; moment = moment } ∷ [] }
    {
        self.owed = 0;
        match self.pending.take() {
            Some(
                Pending {
                    lane,
                    command,
                    event,
                },
            ) => self
                .history
                .push(Entry {
                    lane,
                    command,
                    event,
                    moment,
                })
                .is_ok(),
            None => false,
        }
    }
}
