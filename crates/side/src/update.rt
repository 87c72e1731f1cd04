// The update rule, one text for both sides.
ghost use Rattle.std.specs.Prelude.{◌≡◌};
ghost use Rattle.roaming.specs.Roaming.{entries_in};
ghost use Rattle.side.specs.Update.{left_by, updated};

use super::outcome::{Left, Update};
use super::side::Side;
use operation::user_error::UserError;
use roaming::decision::decide;
use roaming::roaming_list::RoamingList;
use subscription::stay::{Location, Record};

// The node that a subscriber leaves by an update from another one.
fn left_by<D: Side>(location: Location<D::Stay>, new: &D::Stay) -> Option<Left>
    ensures { result ≡ left_by D.Side.meaning location new.now }
{
    if !location.present {
        return None;
    }
    let node = D::node(&location.stay);
    if node == D::node(new) {
        return None;
    }
    Some(Left {
        node,
        lmsi: D::lmsi(&location.stay),
    })
}

// What an update from the node of `new` brings about.
pub fn update<D: Side>(subscriber: Record, new: D::Stay, roaming: &RoamingList) -> Update
    ensures { result ≡ updated D.Side.meaning subscriber new (entries_in roaming.now) }
{
    if !D::served(subscriber.profile.mode) {
        return Update {
            record: subscriber,
            left: None,
            error: Some(UserError::UnknownSubscriber(D::unserved())),
        };
    }
    let left = left_by::<D>(D::location(&subscriber), &new);
    let class = roaming.class_of(&D::node(&new).digits);
    let (location, error) = match decide(class, subscriber.profile.bar) {
        Ok(()) => (Location::standing(new), None),
        Err(cause) => (D::absent(), Some(UserError::RoamingNotAllowed(cause))),
    };
    Update {
        record: D::replace(subscriber, location),
        left,
        error,
    }
}
