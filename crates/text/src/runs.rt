// Runs of octets between two bounds, over which a text is passed eight or sixteen octets at a time.
ghost use Rattle.std.specs.Prelude.{◌≡◌, ◌≤◌, ◌<◌, length, take};
ghost use Rattle.text.specs.Runs.{within, all_within, RunTo, PlainTo, UntokenedTo};

// An octet between two bounds, both included.
pub fn is_within(b: u8, least: u8, most: u8) -> bool
    ensures { result ≡ within least most b }
{
    (b >= least) & (b <= most)
}

// The first eight octets. Nothing is decided between their tests, so that the compiler makes one comparison of all eight.
fn are_eight_within(s: &[u8], least: u8, most: u8) -> bool
    requires { 8 ≤ length s.now }
    ensures { result ≡ all_within least most (take 8 s.now) }
{
    is_within(s[0], least, most)
        & is_within(s[1], least, most)
        & is_within(s[2], least, most)
        & is_within(s[3], least, most)
        & is_within(s[4], least, most)
        & is_within(s[5], least, most)
        & is_within(s[6], least, most)
        & is_within(s[7], least, most)
}

// How far the run goes that begins at a place, by eights alone.
fn eights_end(s: &[u8], at: usize, least: u8, most: u8) -> usize
    requires { at < length s.now }
    ensures { RunTo least most s.now at result }
{
    let (eights, _) = s[at..].as_chunks::<8>();
    for (n, eight) in eights.iter().enumerate() {
        if !are_eight_within(eight, least, most) {
            return at + 8 * n;
        }
    }
    at + 8 * eights.len()
}

// The end of the run that begins at a place: by eights as far as they go, then by single octets.
fn run_end(s: &[u8], at: usize, least: u8, most: u8) -> usize
    requires { at < length s.now }
    ensures { RunTo least most s.now at result }
{
    for end in eights_end(s, at, least, most)..s.len() {
        if !is_within(s[end], least, most) {
            return end;
        }
    }
    s.len()
}

// The functions below give the bounds as constants, which the compiler needs to make one comparison of eight tests or sixteen. `plain_end` and
// `untokened_end` ask the first octet by itself: where no run begins, eights would be in vain.

// The end of the run of octets that are text by themselves.
pub fn plain_end(s: &[u8], at: usize) -> usize
    requires { at < length s.now }
    ensures { PlainTo s.now at result }
{
    if !is_within(s[at], 0x20, 0x7F) {
        return at;
    }
    run_end(s, at, 0x20, 0x7F)
}

// Sixteen octets that are text by themselves: by their constant bounds the compiler makes one comparison of both eights.
fn are_sixteen_plain(s: &[u8]) -> bool
    requires { 16 ≤ length s.now }
    ensures { result ≡ all_within 0x20 0x7F (take 16 s.now) }
{
    are_eight_within(s, 0x20, 0x7F) & are_eight_within(&s[8..], 0x20, 0x7F)
}

// How far the run of such octets goes that begins at a place, by sixteens alone. The last sixteen of the text may take in some that were passed already.
pub fn sixteens_end(s: &[u8], at: usize) -> usize
    requires in_bounds { 16 ≤ length s.now }
    requires at_in_bounds { at < length s.now }
    ensures { PlainTo s.now at result }
{
    let (sixteens, _) = s[at..].as_chunks::<16>();
    for (n, sixteen) in sixteens.iter().enumerate() {
        if !are_sixteen_plain(sixteen) {
            return at + 16 * n;
        }
    }
    if are_sixteen_plain(&s[s.len() - 16..]) {
        return s.len();
    }
    at + 16 * sixteens.len()
}

// The end of the run of octets above the last token.
pub fn untokened_end(s: &[u8], at: usize) -> usize
    requires { at < length s.now }
    ensures { UntokenedTo s.now at result }
{
    if !is_within(s[at], 0x14, 0xFF) {
        return at;
    }
    run_end(s, at, 0x14, 0xFF)
}
