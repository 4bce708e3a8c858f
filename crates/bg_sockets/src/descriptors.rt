//! The number of descriptors that the process may have.

use libc::types::rlimit;

/// The number of the limit on open descriptors (`RLIMIT_NOFILE` of getrlimit(2)).
const DESCRIPTORS: i32 = 7;

/// The number of descriptors that is assumed if the limit cannot be read: the usual limit of a process
/// on Linux.
const USUAL_DESCRIPTORS: u64 = 1024;

/// The number of descriptors that is looked at: a higher limit counts as this number.
const GREATEST_LIMIT: u64 = 1 << 20;

/// How many descriptors a process may have open (`RLIMIT_NOFILE` of getrlimit(2)).
#[derive(Clone, Copy, PartialEq, Eq, Debug, Drop)]
pub struct DescriptorLimits {
    /// The limit that holds (`ulimit -Sn`).
    pub soft: usize,
    /// The limit up to which whoever starts the process may raise the other (`ulimit -Hn`).
    pub hard: usize,
}

/// How many descriptors this process may have open; 1,048,576 for each limit that is higher, and 1,024 for
/// both if they cannot be read.
pub fn descriptor_limits() -> DescriptorLimits {
    let mut limit = rlimit {
        rlim_cur: USUAL_DESCRIPTORS,
        rlim_max: USUAL_DESCRIPTORS,
    };
    if libc::getrlimit(DESCRIPTORS, &mut limit) != 0 {
        limit.rlim_cur = USUAL_DESCRIPTORS;
        limit.rlim_max = USUAL_DESCRIPTORS;
    }
    DescriptorLimits {
        soft: limit.rlim_cur.min(GREATEST_LIMIT) as usize,
        hard: limit.rlim_max.min(GREATEST_LIMIT) as usize,
    }
}
