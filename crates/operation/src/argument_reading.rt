// Reading arguments.
ghost use Rattle.std.specs.Prelude.{◌≡◌};
ghost use Rattle.element.specs.Elements.{unread};
ghost use Rattle.operation.specs.Argument.{argument_at, error_for, gprs_update_in, purge_in, update_in};

use super::argument::{Argument, ArgumentFault, PurgeMs, UpdateGprsLocation, UpdateLocation};
use super::codes::{Operation, Request};
use super::element_reading::{expect, read_optional, read_value};
use super::user_error::UserError;
use element::fault::Layer;
use element::reader::Reader;
use numbers::address::{GsnAddress, Lmsi};
use numbers::imsi::Imsi;
use numbers::node::{MscNumber, SgsnNumber, VlrNumber, number_digits};

// The error that answers a fault.
impl From<ArgumentFault> for UserError {
    ghost from_gives = { λ fault error. error ≡ error_for fault };

    fn from(fault: ArgumentFault) -> UserError {
        match fault {
            ArgumentFault::Missing => UserError::DataMissing,
            ArgumentFault::Wrong => UserError::UnexpectedDataValue,
        }
    }
}

fn read_update_location(mut r: Reader) -> Result<UpdateLocation, ArgumentFault>
    ensures { result ≡ update_in (unread r.entry) }
{
    Ok(UpdateLocation {
        imsi: read_value(&mut r, 0x04, Imsi::unpack)?,
        msc: MscNumber {
            digits: read_value(&mut r, 0x81, number_digits)?,
        },
        vlr: VlrNumber {
            digits: read_value(&mut r, 0x04, number_digits)?,
        },
        lmsi: read_optional(&mut r, 0x8A, Lmsi::read)?,
    })
}

fn read_update_gprs_location(mut r: Reader) -> Result<UpdateGprsLocation, ArgumentFault>
    ensures { result ≡ gprs_update_in (unread r.entry) }
{
    Ok(UpdateGprsLocation {
        imsi: read_value(&mut r, 0x04, Imsi::unpack)?,
        sgsn: SgsnNumber {
            digits: read_value(&mut r, 0x04, number_digits)?,
        },
        address: read_value(&mut r, 0x04, GsnAddress::read)?,
    })
}

fn read_purge_ms(mut r: Reader) -> Result<PurgeMs, ArgumentFault>
    ensures { result ≡ purge_in (unread r.entry) }
{
    let imsi = read_value(&mut r, 0x04, Imsi::unpack)?;
    let vlr = read_optional(&mut r, 0x80, number_digits)?.map(|digits| VlrNumber { digits });
    let sgsn = read_optional(&mut r, 0x81, number_digits)?.map(|digits| SgsnNumber { digits });
    if vlr.is_none() && sgsn.is_none() {
        return Err(ArgumentFault::Missing);
    }
    Ok(PurgeMs { imsi, vlr, sgsn })
}

// The argument of a request. It is missing if its place has another operation's tag.
pub fn read_argument(mut elements: Reader, request: Request) -> Result<Argument, ArgumentFault>
    ensures { result ≡ argument_at request (unread elements.entry) }
{
    let tag = Operation::from(request).argument_tag();
    let r = expect(&mut elements, tag)?.inside(Layer::Body);
    Ok(match request {
        Request::UpdateLocation => Argument::UpdateLocation(read_update_location(r)?),
        Request::UpdateGprsLocation => Argument::UpdateGprsLocation(read_update_gprs_location(r)?),
        Request::PurgeMs => Argument::PurgeMs(read_purge_ms(r)?),
    })
}
