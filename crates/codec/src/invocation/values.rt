ghost use Rattle.std.specs.Prelude.{◌≡◌, refl};
ghost use Rattle.codec.specs.OctetValues.{known};
ghost use Rattle.codec.specs.Invocations.{requested_quality_octet, reason_octet, number};
ghost use Rattle.codec.specs.InvocationReading.{requested_quality_of, reason_of};
ghost use Rattle.codec.specs.declared.invocation.RequestedQuality.TheVariants.{GoodOnly, ErredOnly, All};
ghost use Rattle.codec.specs.declared.invocation.UnbindReason.TheVariants.{End, Suspend, VersionNotSupported, Other};

use super::{InvocationFault, RequestedQuality, UnbindReason};
use crate::octet_value::{OctetValue, UnknownOctet};

// Written for each type, since std's two traits cannot be implemented for all types of such values at once.
// A requested quality and the octet that stands for it.
impl TryFrom<u8> for RequestedQuality {
    type Error = UnknownOctet;

    ghost try_from_gives = { λ n r. r ≡ known (requested_quality_of n) n };

    fn try_from(octet: u8) -> Result<RequestedQuality, UnknownOctet> {
        match octet {
            0 => Ok(RequestedQuality::GoodOnly),
            1 => Ok(RequestedQuality::ErredOnly),
            2 => Ok(RequestedQuality::All),
            _ => Err(UnknownOctet { octet }),
        }
    }
}

impl From<RequestedQuality> for u8 {
    ghost from_gives = { λ quality n. n ≡ requested_quality_octet quality };

    fn from(quality: RequestedQuality) -> u8 {
        match quality {
            RequestedQuality::GoodOnly => 0,
            RequestedQuality::ErredOnly => 1,
            RequestedQuality::All => 2,
        }
    }
}

impl OctetValue for RequestedQuality {
    ghost value_of = { requested_quality_of };

    ghost octet_of = { requested_quality_octet };

    ghost decodes = { λ n r given. given };

    ghost encodes = { λ v n given. given };

    ghost given_back = { elim [ GoodOnly ↦ refl | ErredOnly ↦ refl | All ↦ refl ] };
}

// A reason to unbind and the octet that stands for it.
impl TryFrom<u8> for UnbindReason {
    type Error = UnknownOctet;

    ghost try_from_gives = { λ n r. r ≡ known (reason_of n) n };

    fn try_from(octet: u8) -> Result<UnbindReason, UnknownOctet> {
        match octet {
            0 => Ok(UnbindReason::End),
            1 => Ok(UnbindReason::Suspend),
            2 => Ok(UnbindReason::VersionNotSupported),
            127 => Ok(UnbindReason::Other),
            _ => Err(UnknownOctet { octet }),
        }
    }
}

impl From<UnbindReason> for u8 {
    ghost from_gives = { λ reason n. n ≡ reason_octet reason };

    fn from(reason: UnbindReason) -> u8 {
        match reason {
            UnbindReason::End => 0,
            UnbindReason::Suspend => 1,
            UnbindReason::VersionNotSupported => 2,
            UnbindReason::Other => 127,
        }
    }
}

impl OctetValue for UnbindReason {
    ghost value_of = { reason_of };

    ghost octet_of = { reason_octet };

    ghost decodes = { λ n r given. given };

    ghost encodes = { λ v n given. given };

    ghost given_back = { elim [ End ↦ refl | Suspend ↦ refl | VersionNotSupported ↦ refl | Other ↦ refl ] };
}

impl InvocationFault {
    // The number under which the refusal is answered: a method, whose name says what the number is.
    pub fn number(self) -> u8
        ensures { result ≡ number self }
    {
        match self {
            InvocationFault::Closed => 4,
            InvocationFault::Undecodable(_) => 20,
            InvocationFault::ProtocolError => 21,
            InvocationFault::AccessDenied => 22,
            InvocationFault::VersionNotSupported => 23,
            InvocationFault::InvalidStopTime => 24,
            InvocationFault::OutOfService => 25,
            InvocationFault::NoAssociation => 26,
        }
    }
}
