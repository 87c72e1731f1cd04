// Insert Subscriber Data, operation 7: what a download is made of.
ghost use Rattle.std.specs.Prelude.{◌≡◌, ℕ, ◌+◌, ◌*◌, ◌<◌, ◌≤◌, ◌++◌, length, take};
ghost use Rattle.message.specs.Messages.{circuit_insert, codes_insert, packet_insert};
ghost use Rattle.message.specs.Writing.{coded, codes_in, written};

use super::kinds::{AccessMode, Service};
use super::message::Message;
use super::parts::invoke;
use numbers::imsi::Imsi;
use numbers::node::Msisdn;
use operation::codes::Operation;

// Insert 1 for the circuit side. The IMSI stands in front in a dialogue that the register itself starts.
pub fn circuit_insert(imsi: Option<Imsi>, msisdn: Msisdn, category: u8) -> Message
    ensures { written result ≡ circuit_insert imsi msisdn category }
{
    let mut argument = Message::empty();
    argument.put_optional_imsi(imsi);
    argument.put_number(0x81, &msisdn.digits);
    argument.put(0x82, &[category]);
    argument.put(0x83, &[0]);
    invoke(1, Operation::InsertSubscriberData, argument.as_slice())
}

// Insert 1 for the packet side. Apart from the circuit side's: other elements stand in it, in other places.
pub fn packet_insert(imsi: Option<Imsi>, msisdn: Msisdn, mode: AccessMode) -> Message
    ensures { written result ≡ packet_insert imsi msisdn mode }
{
    let mut argument = Message::empty();
    argument.put_optional_imsi(imsi);
    argument.put_number(0x81, &msisdn.digits);
    argument.put(0x83, &[0]);
    argument.put(0x98, &[u8::from(mode)]);
    invoke(1, Operation::InsertSubscriberData, argument.as_slice())
}

impl Message {
    // An element that holds codes, each 04 01 and the octet.
    fn put_codes(&mut self, tag: u8, codes: &[u8])
        requires short { 3 * length codes.now < 128 }
        requires room { self.old.len + 2 + 3 * length codes.now ≤ 256 }
        ensures more { written self.new ≡ written self.old ++ coded tag (codes_in codes.now) }
        ensures size { self.new.len ≡ self.old.len + 2 + 3 * length codes.now }
    {
        self.head(tag, 3 * codes.len());
        for code in codes {
            self.put(0x04, &[*code]);
        }
    }
}

// Ten codes, or all if there are fewer.
fn next_ten(left: &[u8]) -> &[u8]
    ensures front { result.now ≡ take 10 left.now }
    ensures few { length result.now ≤ 10 }
{
    &left[..left.len().min(10)]
}

// A later insert: the next ten of the codes that are left, or all of them.
pub fn codes_insert(id: u8, service: Service, left: &[u8]) -> Message
    ensures { written result ≡ codes_insert id service left.now }
{
    let mut argument = Message::empty();
    argument.put_codes(service.tag(), next_ten(left));
    invoke(id, Operation::InsertSubscriberData, argument.as_slice())
}
