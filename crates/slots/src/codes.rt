// The codes that the plan tells apart, and the faults that the flat disk gives of its own accord. Codes are as errno has them.
use faults::DiskFault;

// Nothing is bound there.
pub(crate) const ENOENT: u16 = 2;

// Interrupted by a signal: only a write gives it.
pub(crate) const EINTR: u16 = 4;

pub const NOT_BOUND: DiskFault = DiskFault::Code(ENOENT);

// Not a file that is held: EBADF.
pub const NOT_HELD: DiskFault = DiskFault::Code(9);

// No room, in bytes, in files, in holds or in mutations: ENOSPC.
pub const NO_ROOM: DiskFault = DiskFault::Code(28);
