// What the functions return, by the names of include/r8.h.
pub(crate) const OK: u32 = 0;
// document 01's number, as itself
pub(crate) const UNDEFINED: u32 = 6;
// this interface's own
pub(crate) const NO_ROOM: u32 = 100;

pub(crate) const NO_CORE: u32 = 101;

pub(crate) const NO_CALL: u32 = 102;

pub(crate) const NO_STRETCH: u32 = 103;

pub(crate) const TOO_LONG: u32 = 104;
