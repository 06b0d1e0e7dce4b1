//! The statuses of the calls, which `specs/Statuses.antt` has by the same names.
pub(crate) const DONE: i32 = 0;

pub(crate) const BAD_LENGTH: i32 = -1;

pub(crate) const BAD_EVENT: i32 = -2;

pub(crate) const NO_ROOM: i32 = -3;

pub(crate) const FAULTY: i32 = -4;

pub(crate) const UNSAFE: i32 = -5;

pub(crate) const TEXT_FAULT: i32 = -6;

pub(crate) const BAD_HOLDING: i32 = -7;

pub(crate) const BAD_KIND: i32 = -8;

pub(crate) const BAD_CODE: i32 = -9;

pub(crate) const BAD_PLACE: i32 = -10;

pub(crate) const TOO_WIDE: i32 = -11;
