// The circuit side.
ghost use Rattle.std.specs.Prelude.{◌≡◌};
ghost use Rattle.side.specs.Sides.{circuit_meaning};
ghost use Rattle.std.proofs.Common.{rules};

use super::side::Side;
use message::insert::circuit_insert;
use message::kinds::AccessMode;
use message::message::Message;
use numbers::address::Lmsi;
use numbers::imsi::Imsi;
use numbers::node::NodeNumber;
use operation::codes::Operation;
use operation::user_error::Diagnostic;
use subscription::code_list::CodeList;
use subscription::making::no_circuit;
use subscription::profile::Profile;
use subscription::stay::{CircuitStay, Location, Record};

#[derive(Clone, Copy)]
pub struct Circuit;

impl Side for Circuit {
    type Stay = CircuitStay;

    ghost meaning = { circuit_meaning };

    ghost located = { Prim.search rules };

    ghost same_imsi = { Prim.search rules };

    ghost same_profile = { Prim.search rules };

    fn location(subscriber: &Record) -> Location<CircuitStay> {
        subscriber.circuit
    }

    fn replace(subscriber: Record, location: Location<CircuitStay>) -> Record
        ensures { result ≡ circuit_meaning.replaced subscriber location }
    {
        Record {
            circuit: location,
            ..subscriber
        }
    }

    fn absent() -> Location<CircuitStay> {
        no_circuit()
    }

    fn node(stay: &CircuitStay) -> NodeNumber {
        NodeNumber {
            digits: stay.vlr.digits,
        }
    }

    fn lmsi(stay: &CircuitStay) -> Option<Lmsi> {
        stay.lmsi
    }

    fn served(mode: AccessMode) -> bool {
        match mode {
            AccessMode::Both | AccessMode::CircuitOnly => true,
            AccessMode::PacketOnly => false,
        }
    }

    fn unserved() -> Diagnostic {
        Diagnostic::ImsiUnknown
    }

    fn operation() -> Operation {
        Operation::UpdateLocation
    }

    fn first(imsi: Option<Imsi>, profile: &Profile) -> Message {
        circuit_insert(imsi, profile.msisdn, profile.category)
    }

    fn bearers(profile: &Profile) -> CodeList {
        profile.bearers
    }
}
