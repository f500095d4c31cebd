// The marks of the two records, and the types of the notifications.
pub(super) const FRAME_MARK: u16 = 0x4652;

pub(super) const NOTIFICATION_MARK: u16 = 0x4E54;

pub(super) const LOSS_TYPE: u8 = 0;

pub(super) const STATUS_TYPE: u8 = 1;

pub(super) const END_OF_DATA_TYPE: u8 = 3;
