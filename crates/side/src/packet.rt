// The packet side.
ghost use Rattle.std.specs.Prelude.{◌≡◌};
ghost use Rattle.side.specs.Sides.{packet_meaning};
ghost use Rattle.std.proofs.Common.{rules};

use super::side::Side;
use message::insert::packet_insert;
use message::kinds::AccessMode;
use message::message::Message;
use numbers::address::Lmsi;
use numbers::imsi::Imsi;
use numbers::node::NodeNumber;
use operation::codes::Operation;
use operation::user_error::Diagnostic;
use subscription::code_list::CodeList;
use subscription::making::no_packet;
use subscription::profile::Profile;
use subscription::stay::{Location, PacketStay, Record};

#[derive(Clone, Copy)]
pub struct Packet;

impl Side for Packet {
    type Stay = PacketStay;

    ghost meaning = { packet_meaning };

    ghost located = { Prim.search rules };

    ghost same_imsi = { Prim.search rules };

    ghost same_profile = { Prim.search rules };

    fn location(subscriber: &Record) -> Location<PacketStay> {
        subscriber.packet
    }

    fn replace(subscriber: Record, location: Location<PacketStay>) -> Record
        ensures { result ≡ packet_meaning.replaced subscriber location }
    {
        Record {
            packet: location,
            ..subscriber
        }
    }

    fn absent() -> Location<PacketStay> {
        no_packet()
    }

    fn node(stay: &PacketStay) -> NodeNumber {
        NodeNumber {
            digits: stay.sgsn.digits,
        }
    }

    fn lmsi(_stay: &PacketStay) -> Option<Lmsi> {
        None
    }

    fn served(mode: AccessMode) -> bool {
        match mode {
            AccessMode::Both | AccessMode::PacketOnly => true,
            AccessMode::CircuitOnly => false,
        }
    }

    fn unserved() -> Diagnostic {
        Diagnostic::GprsSubscriptionUnknown
    }

    fn operation() -> Operation {
        Operation::UpdateGprsLocation
    }

    fn first(imsi: Option<Imsi>, profile: &Profile) -> Message {
        packet_insert(imsi, profile.msisdn, profile.mode)
    }

    fn bearers(_profile: &Profile) -> CodeList {
        CodeList::empty()
    }
}
