// Operations of TS 29.002, with their codes.
ghost use Rattle.std.specs.Prelude.{◌≡◌};
ghost use Rattle.operation.specs.Codes.{argument_tag, operation_number, operation_of, request_at};

use octets::range::OutOfRange;

// Each with its code.
#[derive(Clone, Copy, Debug, PartialEq, Eq)]
pub enum Operation {
    UpdateLocation = 2,
    CancelLocation = 3,
    InsertSubscriberData = 7,
    UpdateGprsLocation = 23,
    PurgeMs = 67,
}

// The operations that nodes invoke. A request's code is its operation's.
#[derive(Clone, Copy, Debug, PartialEq, Eq)]
pub enum Request {
    UpdateLocation,
    UpdateGprsLocation,
    PurgeMs,
}

impl From<Operation> for u8 {
    ghost from_gives = { λ operation code. code ≡ operation_number operation };

    fn from(operation: Operation) -> u8 {
        operation as u8
    }
}

impl From<Request> for Operation {
    ghost from_gives = { λ request operation. operation ≡ operation_of request };

    fn from(request: Request) -> Operation {
        match request {
            Request::UpdateLocation => Operation::UpdateLocation,
            Request::UpdateGprsLocation => Operation::UpdateGprsLocation,
            Request::PurgeMs => Operation::PurgeMs,
        }
    }
}

// The request with this operation code. Written out, as those of other enums are: each names its own cases.
impl TryFrom<u8> for Request {
    type Error = OutOfRange;

    ghost try_from_gives = { λ code request. request ≡ request_at code };

    fn try_from(code: u8) -> Result<Request, OutOfRange> {
        match code {
            2 => Ok(Request::UpdateLocation),
            23 => Ok(Request::UpdateGprsLocation),
            67 => Ok(Request::PurgeMs),
            _ => Err(OutOfRange),
        }
    }
}

impl Operation {
    // The tag of the operation's argument: how it begins and not which operation it is, so no conversion.
    pub fn argument_tag(self) -> u8
        ensures { result ≡ argument_tag self }
    {
        match self {
            Operation::UpdateLocation
            | Operation::InsertSubscriberData
            | Operation::UpdateGprsLocation => 0x30,
            Operation::CancelLocation | Operation::PurgeMs => 0xA3,
        }
    }
}
