// What fails is said on standard error.
use std::io::Write;

// What standard error doesn't take is lost.
pub fn complain(rt: &HostRuntime, text: &[u8]) {
    let _ = rt.stderr().write_all(text);
}
