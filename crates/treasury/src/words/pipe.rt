//! A standard output that nobody reads any more.

use libc::net::{POLLERR, poll};
use libc::types::pollfd;

/// The descriptor of standard output.
const OUTPUT: i32 = 1;

/// Whether standard output is a pipe whose reader has gone. What was not written is not missed then, as with other
/// tools.
pub fn is_unread() -> bool {
    let mut asked = [pollfd {
        fd: OUTPUT,
        events: 0,
        revents: 0,
    }];
    let ready = poll(&mut asked, 0);
    ready > 0 && asked[0].revents & POLLERR != 0
}
