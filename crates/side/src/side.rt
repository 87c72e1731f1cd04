// What the text for both sides asks of a side.
ghost use Rattle.std.specs.Prelude.{◌≡◌};
ghost use Rattle.subscription.specs.declared.stay.Record.{Record as Subscriber};
ghost use Rattle.subscription.specs.declared.stay.Location.{Location as Place};
ghost use Rattle.message.specs.Writing.{written};
ghost use Rattle.subscription.specs.Codes.{codes_in};
ghost use Rattle.side.specs.Meaning.{Meaning};

use message::kinds::AccessMode;
use message::message::Message;
use numbers::address::Lmsi;
use numbers::imsi::Imsi;
use numbers::node::NodeNumber;
use operation::codes::Operation;
use operation::user_error::Diagnostic;
use subscription::code_list::CodeList;
use subscription::profile::Profile;
use subscription::stay::{Location, Record};

// The two ends are what differs between the sides, a line or two to a member: their likeness is the trait's own form.
pub trait Side {
    // a stay on this side
    type Stay: Copy;

    // what the side means
    ghost meaning: { Meaning Self.Stay };

    // This side of a record.
    fn location(subscriber: &Record) -> Location<Self::Stay>
        ensures { result ≡ meaning.location subscriber.now };

    // The record with this side replaced.
    fn replace(subscriber: Record, location: Location<Self::Stay>) -> Record
        ensures { result ≡ meaning.replaced subscriber location };

    // The side without a stay.
    fn absent() -> Location<Self::Stay>
        ensures { result ≡ meaning.absent };

    // The node at which a stay is.
    fn node(stay: &Self::Stay) -> NodeNumber
        ensures { result ≡ meaning.node stay.now };

    // The LMSI of a stay, if it has one.
    fn lmsi(stay: &Self::Stay) -> Option<Lmsi>
        ensures { result ≡ meaning.lmsi stay.now };

    // Whether an access mode has this side.
    fn served(mode: AccessMode) -> bool
        ensures { result ≡ meaning.served mode };

    // The diagnostic where it has not.
    fn unserved() -> Diagnostic
        ensures { result ≡ meaning.unserved };

    // The operation by which this side's nodes update.
    fn operation() -> Operation
        ensures { result ≡ meaning.operation };

    // Insert 1 of a download, for a subscription: the IMSI goes into the message or not, so it is no part of the profile.
    fn first(imsi: Option<Imsi>, profile: &Profile) -> Message
        ensures { written result ≡ meaning.first imsi profile.now };

    // The bearer codes that a download sends.
    fn bearers(profile: &Profile) -> CodeList
        ensures { codes_in result ≡ meaning.bearers profile.now };

    // a side of a record that is replaced is what replaced it, and the rest of the record stays
    ghost located: { (r : Subscriber) (l : Place Self.Stay) → meaning.location (meaning.replaced r l) ≡ l };

    ghost same_imsi: { (r : Subscriber) (l : Place Self.Stay) → (meaning.replaced r l).imsi ≡ r.imsi };

    ghost same_profile: { (r : Subscriber) (l : Place Self.Stay) → (meaning.replaced r l).profile ≡ r.profile };
}
