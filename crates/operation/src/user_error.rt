// User errors of TS 29.002, with their codes and parameters.
ghost use Rattle.std.specs.Prelude.{◌≡◌};
ghost use Rattle.operation.specs.Codes.{cause_number, diagnostic_number, error_detail, error_number};

// Why a subscriber is unknown.
#[derive(Clone, Copy, Debug, PartialEq, Eq)]
pub enum Diagnostic {
    ImsiUnknown = 0,
    GprsSubscriptionUnknown = 1,
}

impl From<Diagnostic> for u8 {
    ghost from_gives = { λ diagnostic number. number ≡ diagnostic_number diagnostic };

    fn from(diagnostic: Diagnostic) -> u8 {
        diagnostic as u8
    }
}

// Why roaming is not allowed.
#[derive(Clone, Copy, Debug, PartialEq, Eq)]
pub enum Cause {
    PlmnRoamingNotAllowed = 0,
    OperatorDeterminedBarring = 3,
}

impl From<Cause> for u8 {
    ghost from_gives = { λ cause number. number ≡ cause_number cause };

    fn from(cause: Cause) -> u8 {
        cause as u8
    }
}

#[derive(Clone, Copy, Debug, PartialEq, Eq)]
pub enum UserError {
    UnknownSubscriber(Diagnostic),
    RoamingNotAllowed(Cause),
    SystemFailure,
    DataMissing,
    UnexpectedDataValue,
}

impl UserError {
    // The error's code: with the detail it is what a message holds of an error, so a property and no conversion.
    pub fn number(self) -> u8
        ensures { result ≡ error_number self }
    {
        match self {
            UserError::UnknownSubscriber(_) => 1,
            UserError::RoamingNotAllowed(_) => 8,
            UserError::SystemFailure => 34,
            UserError::DataMissing => 35,
            UserError::UnexpectedDataValue => 36,
        }
    }

    // The value of its parameter, if it has one.
    pub fn detail(self) -> Option<u8>
        ensures { result ≡ error_detail self }
    {
        match self {
            UserError::UnknownSubscriber(diagnostic) => Some(u8::from(diagnostic)),
            UserError::RoamingNotAllowed(cause) => Some(u8::from(cause)),
            UserError::SystemFailure | UserError::DataMissing | UserError::UnexpectedDataValue =>
                None,
        }
    }
}
