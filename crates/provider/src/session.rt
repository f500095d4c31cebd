ghost use Rattle.std.specs.Prelude.{◌≤◌};

use crate::answer::OpeningRefusal;
use crate::phase::Phase;
use crate::selection::Selection;
use crate::settings::Settings;
use crate::transfer_buffer::TransferBuffer;
use codec::record::ProductionStatus;

pub(crate) mod entries;
pub(crate) mod fresh;
pub(crate) mod invocations;
pub(crate) mod phases;

// A provider's own part, apart from its queues: what it was opened with and how that ended; the phase of the
// association; the last START's selection, and whether end of data has been put in since; the transfer buffer, and its
// age in active ticks; the production status last accepted.
#[derive(Drop)]
pub struct Session {
    pub(crate) settings: Settings,
    pub(crate) opening: Result<(), OpeningRefusal>,
    pub(crate) phase: Phase,
    pub(crate) selection: Selection,
    pub(crate) end_mark: bool,
    pub(crate) age: u32,
    pub(crate) production: ProductionStatus,
    pub(crate) buffer: TransferBuffer,
    ghost filled: { buffer.count ≤ settings.buffer_size },
}
