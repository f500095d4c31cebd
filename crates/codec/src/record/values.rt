ghost use Rattle.std.specs.Prelude.{◌≡◌, refl};
ghost use Rattle.codec.specs.OctetValues.{known};
ghost use Rattle.codec.specs.Records.{quality_octet, status_octet};
ghost use Rattle.codec.specs.RecordReading.{quality_of, status_of};
ghost use Rattle.codec.specs.declared.record.Quality.TheVariants.{Good, Erred, Undetermined};
ghost use Rattle.codec.specs.declared.record.ProductionStatus.TheVariants.{Running, Interrupted, Halted};

use super::{ProductionStatus, Quality};
use crate::octet_value::{OctetValue, UnknownOctet};

// Written for each type, since std's two traits cannot be implemented for all types of such values at once.
// A quality and the octet that stands for it.
impl TryFrom<u8> for Quality {
    type Error = UnknownOctet;

    ghost try_from_gives = { λ n r. r ≡ known (quality_of n) n };

    fn try_from(octet: u8) -> Result<Quality, UnknownOctet> {
        match octet {
            0 => Ok(Quality::Good),
            1 => Ok(Quality::Erred),
            2 => Ok(Quality::Undetermined),
            _ => Err(UnknownOctet { octet }),
        }
    }
}

impl From<Quality> for u8 {
    ghost from_gives = { λ quality n. n ≡ quality_octet quality };

    fn from(quality: Quality) -> u8 {
        match quality {
            Quality::Good => 0,
            Quality::Erred => 1,
            Quality::Undetermined => 2,
        }
    }
}

impl OctetValue for Quality {
    ghost value_of = { quality_of };

    ghost octet_of = { quality_octet };

    ghost decodes = { λ n r given. given };

    ghost encodes = { λ v n given. given };

    ghost given_back = { elim [ Good ↦ refl | Erred ↦ refl | Undetermined ↦ refl ] };
}

// A production status and the octet that stands for it.
impl TryFrom<u8> for ProductionStatus {
    type Error = UnknownOctet;

    ghost try_from_gives = { λ n r. r ≡ known (status_of n) n };

    fn try_from(octet: u8) -> Result<ProductionStatus, UnknownOctet> {
        match octet {
            0 => Ok(ProductionStatus::Running),
            1 => Ok(ProductionStatus::Interrupted),
            2 => Ok(ProductionStatus::Halted),
            _ => Err(UnknownOctet { octet }),
        }
    }
}

impl From<ProductionStatus> for u8 {
    ghost from_gives = { λ status n. n ≡ status_octet status };

    fn from(status: ProductionStatus) -> u8 {
        match status {
            ProductionStatus::Running => 0,
            ProductionStatus::Interrupted => 1,
            ProductionStatus::Halted => 2,
        }
    }
}

impl OctetValue for ProductionStatus {
    ghost value_of = { status_of };

    ghost octet_of = { status_octet };

    ghost decodes = { λ n r given. given };

    ghost encodes = { λ v n given. given };

    ghost given_back = { elim [ Running ↦ refl | Interrupted ↦ refl | Halted ↦ refl ] };
}
