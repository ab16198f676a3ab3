// A text looked at once: whether it is text, whether each of its tokens has an entry, and how many characters are shown of it, by the marks of a table and
// what its tokens show, which are made once for all texts and not once a text. Runs of octets that stand for themselves are passed over as `check` does.
ghost use Rattle.std.specs.Prelude.{◌≡◌, ◌+◌, ◌≤◌, min};
ghost use Rattle.text.specs.Leaves.{all_marked};
ghost use Rattle.text.specs.Weighing.{covered_shown, weighed_by};

use crate::Weighed;
use crate::characters::{sequence, token_bit};
use crate::runs::plain_end;
use crate::shown::shown_at;
use octets::Characters;

// What is told of a text: whether each of its tokens, which have a bit each, has an entry by the marks of a table, and how many characters are shown of it.
fn weighed(marks: u32, used: u32, shown: Characters) -> Weighed
    ensures { result ≡ covered_shown (all_marked marks used) shown }
{
    Weighed {
        covered: used & marks == used,
        shown,
    }
}

// A sum that stops at `most`, so that none is too large.
fn capped(shown: Characters, more: Characters, most: Characters) -> Characters
    requires { shown.0 ≤ most.0 }
    ensures result_value { result.0 ≡ min most.0 (shown.0 + more.0) }
    ensures result_le_most { result.0 ≤ most.0 }
{
    if most.0 - shown.0 <= more.0 {
        return most;
    }
    let sum = shown.0 + more.0;
    Characters(sum)
}

// A text weighed in one look, what is shown of it counted up to `most`; None: it is no text (rule 10). Each octet of a run is a character. Of what stands
// between runs, an octet below 0x14 is a character by itself, unless it is 0, and of any other character the first octet counts. The two ways meet only at the
// next run, so that a processor guesses once, and not at each question, which of them an octet goes.
pub fn weigh(marks: u32, shows: &[u8; 32], s: &[u8], most: Characters) -> Option<Weighed>
    ensures { result ≡ weighed_by marks shows.now s.now most }
{
    let mut at: usize = 0;
    let mut used: u32 = 0;
    let mut shown = Characters(0);
    while at < s.len() {
        let from = plain_end(s, at);
        let run = from - at;
        if from == s.len() {
            return Some(weighed(marks, used, capped(shown, Characters(run), most)));
        }
        let b = s[from];
        if b < 0x14 {
            if b == 0 {
                return None;
            }
            used |= token_bit(b);
            let more = run + shown_at(shows, b).0;
            shown = capped(shown, Characters(more), most);
            at = from + 1;
        } else {
            let end = sequence(&s[from..], true);
            if end == 0 {
                return None;
            }
            let more = run + 1;
            shown = capped(shown, Characters(more), most);
            at = from + end;
        }
    }
    Some(weighed(marks, used, shown))
}
