// The command for people: checks objects in files, also for the small receiver, lists their records, shows their items, writes their normal form, packed or
// not, or XML, edits one, compares two, merges two. The script ./spi builds it and runs it, once a pair of files where two folders are compared; a recording is
// replayed by the program replay.
//
// What is said of an object is proved where it is found, in `judge`, `reader`, `pocket`, `compare`, `packer`, `edits`, `merging`, `writer`, `xml` and `show`;
// here every function is safe and ends. The last line on standard output is a status of its own, which the script takes away and ends with; the program itself
// ends with 0.
#![tactic(auto)]

mod asking;
mod comparing;
mod editing;
mod failing;
mod files;
mod joining;
mod lines;
mod memory;
mod objects;
mod status;
mod tree;
mod words;

use crate::comparing::compare;
use crate::editing::edited_form;
use crate::failing::complain;
use crate::files::{argument, argument_count, file_argument, load, load_input, save};
use crate::joining::{basic_argument, merge_with};
use crate::lines::{refused, say, say_saved};
use crate::memory::{FILE, INPUT, NAME, OBJECT, TEXT, zeros};
use crate::objects::{check, list, normal_form, outline, packed_form, pass, xml_text};
use crate::status::{Ended, Stop, status_of};
use merge::Services;
use pocket::DataType;
use std::fmt::Display;

fn usage(rt: &HostRuntime, text: &[u8]) -> Ended {
    complain(rt, b"usage: spi ");
    complain(rt, text);
    complain(rt, b"\n");
    Err(Stop::Failed)
}

fn usage_of_all(rt: &HostRuntime) -> Ended {
    usage(
        rt,
        b"check | gate | list | show | normal | pack | xml | edit | compare | merge | replay | help",
    )
}

fn help_edit(rt: &HostRuntime) {
    say(
        rt,
        b"spi edit FILE OUT       edits an object, by lines of standard input or by the words behind OUT, and writes its normal form to OUT:\n",
    );
    say(
        rt,
        b"  text NUMBER TEXT                another text for a record, all that is left of the line\n",
    );
    say(
        rt,
        b"  text-hex NUMBER HEX             the same by hexadecimal digits, for a text with a line end\n",
    );
    say(
        rt,
        b"  remove NUMBER                   a record goes, with all below it\n",
    );
    say(
        rt,
        b"  insert PARENT PLACE HEX         an element comes, by its octets, as the child element of that number from 0\n",
    );
    say(
        rt,
        b"  insert-file PARENT PLACE FILE   the same by a file of its octets\n",
    );
    say(
        rt,
        b"  Records have numbers from 0 in the order of spi list. One edit that is refused, and OUT isn't written.\n",
    );
}

fn help_merge(rt: &HostRuntime) {
    say(
        rt,
        b"spi merge [--services-by-bearers] BASIC ADVANCED OUT   merges two objects and writes the normal form of the result to OUT:\n",
    );
    say(
        rt,
        b"  without the option              services are told apart by their tag alone: an ensemble has one then, and one that has more is refused\n",
    );
    say(
        rt,
        b"  --services-by-bearers           services are told apart by the set of their bearers' ids, as a multiplex with several services needs\n",
    );
    say(
        rt,
        b"  Where a file is refused, or the two can't be merged, OUT isn't written.\n",
    );
}

fn help(rt: &HostRuntime) {
    say(
        rt,
        b"spi check FILE..        for each file: ok, its records, items, octets and those of its normal form, or why it is refused and where\n",
    );
    say(
        rt,
        b"spi gate TYPE FILE..    for each file, as one of the data type SI, PI or GI: yes, or why the small receiver isn't sent it and where\n",
    );
    say(rt, b"spi list FILE           the records of an object\n");
    say(
        rt,
        b"spi show FILE           its items as a tree: place, name and value as in the XML (line feed as &#10;), or octets in hexadecimal\n",
    );
    say(
        rt,
        b"spi normal FILE OUT     writes an object's normal form to the file OUT\n",
    );
    say(
        rt,
        b"spi pack FILE OUT       writes its normal form with common words folded to the file OUT, where that is shorter; else the normal form\n",
    );
    say(
        rt,
        b"spi xml FILE OUT        writes an object's XML to the file OUT\n",
    );
    help_edit(rt);
    say(
        rt,
        b"spi compare FILE FILE   whether two objects mean the same\n",
    );
    say(
        rt,
        b"spi compare DIR DIR     the same of the objects in two folders, by file name\n",
    );
    help_merge(rt);
    say(
        rt,
        b"spi replay FILE         for each object of a recording: its number, ok and its records, or its refusal, place and of 9 the field\n",
    );
    say(rt, b"spi help                these lines\n");
    say(
        rt,
        b"status: 0 ok or same, 1 refused or different, 2 no such command or file\n",
    );
}

// ---- objects that are made and saved

// What was made of an object, in words, to the file that the third argument names.
fn save_made(
    rt: &HostRuntime,
    path: &[u8],
    object: &[u8],
    words: impl Display + Drop,
    made: &[u8],
) -> Ended {
    let mut name = [0u8; NAME];
    let out = argument(rt, 3, &mut name);
    save(rt, out, made)?;
    say_saved(rt, path, object.len(), words, made.len(), out);
    Ok(())
}

fn save_normal(rt: &HostRuntime, path: &[u8], object: &[u8]) -> Ended {
    let mut room = [0u8; OBJECT];
    let normal = normal_form(object, &mut room).map_err(|refusal| refused(rt, path, refusal))?;
    save_made(rt, path, object, "normal form", normal)
}

// The normal form has the limit of an object, and a room as long suffices, so the packer refuses nothing here.
fn save_packed(rt: &HostRuntime, path: &[u8], object: &[u8]) -> Ended {
    let mut room = [0u8; OBJECT];
    let normal = normal_form(object, &mut room).map_err(|refusal| refused(rt, path, refusal))?;
    let mut shorter = [0u8; OBJECT];
    let packed = packed_form(normal, &mut shorter).map_err(|refusal| refused(rt, path, refusal))?;
    let size = normal.len();
    let words = format_args!("normal form of {size} octets, packed");
    save_made(rt, path, object, words, packed)
}

fn save_xml(rt: &HostRuntime, path: &[u8], object: &[u8]) -> Ended {
    let mut room = zeros::<TEXT>();
    let text = xml_text(object, &mut room).map_err(|refusal| refused(rt, path, refusal))?;
    save_made(rt, path, object, "XML", text)
}

// An object edited as standard input says.
fn save_edited(rt: &HostRuntime, path: &[u8], object: &[u8]) -> Ended {
    let mut input = zeros::<INPUT>();
    let lines = load_input(rt, &mut input)?;
    let mut room = [0u8; OBJECT];
    let (made, normal) = edited_form(rt, path, object, lines, &mut room)?;
    let words = format_args!("normal form after edit {made}");
    save_made(rt, path, object, words, normal)
}

// An object compared with that in the file that the third argument names.
fn compare_with(rt: &HostRuntime, first: &[u8], a: &[u8]) -> Ended {
    let mut name = [0u8; NAME];
    let mut room = [0u8; FILE];
    let second = file_argument(rt, 3, &mut name)?;
    let b = load(rt, second, &mut room)?;
    compare(rt, first, a, second, b)
}

// ---- tasks: each is done with a file, by its name and its octets

// A task on the file that an argument names.
fn treat_argument<F: Fn(&HostRuntime, &[u8], &[u8]) -> Ended>(
    rt: &HostRuntime,
    i: usize,
    task: &F,
) -> Ended
    requires { F.IsAlwaysCallable task.now }
{
    let mut name = [0u8; NAME];
    let mut room = [0u8; FILE];
    let path = file_argument(rt, i, &mut name)?;
    let object = load(rt, path, &mut room)?;
    task(rt, path, object)
}

// A task on each file from an argument on. It ends as the worst of these.
fn treat_all<F: Fn(&HostRuntime, &[u8], &[u8]) -> Ended>(
    rt: &HostRuntime,
    from: usize,
    count: usize,
    task: &F,
) -> Ended
    requires { F.IsAlwaysCallable task.now }
{
    let mut worst = Ok(());
    for i in from..count {
        worst = worst.max(treat_argument(rt, i, task));
    }
    worst
}

// A task on a command's first file, where the command has all its words.
fn treat_first<F: Fn(&HostRuntime, &[u8], &[u8]) -> Ended>(
    rt: &HostRuntime,
    whole: bool,
    words: &[u8],
    task: &F,
) -> Ended
    requires { F.IsAlwaysCallable task.now }
{
    if !whole {
        return usage(rt, words);
    }
    treat_argument(rt, 2, task)
}

// The data type that a word names.
fn data_type(word: &[u8]) -> Option<DataType> {
    match word {
        b"SI" => Some(DataType::Service),
        b"PI" => Some(DataType::Programme),
        b"GI" => Some(DataType::Group),
        _ => None,
    }
}

fn gate_all(rt: &HostRuntime, count: usize) -> Ended {
    let mut word = [0u8; NAME];
    match data_type(argument(rt, 2, &mut word)) {
        Some(subject) if count > 3 => treat_all(
            rt,
            3,
            count,
            &|rt, path, object| { pass(rt, path, object, subject) },
        ),
        _ => usage(rt, b"gate SI|PI|GI FILE.."),
    }
}

// By what services are told apart, as the word before the files says.
fn services_asked(rt: &HostRuntime) -> Services {
    let mut word = [0u8; NAME];
    match argument(rt, 2, &mut word) {
        b"--services-by-bearers" => Services::ByBearers,
        _ => Services::ByTag,
    }
}

// A word with two dashes is an option, so that one that isn't known, or stands behind the files, doesn't pass as the name of a file.
fn is_option(rt: &HostRuntime, i: usize) -> bool {
    let mut word = [0u8; NAME];
    argument(rt, i, &mut word).starts_with(b"--")
}

fn merge_files(rt: &HostRuntime, count: usize) -> Ended {
    let by = services_asked(rt);
    let first = basic_argument(by);
    if count != first + 3 || (first..count).any(|i| is_option(rt, i)) {
        return usage(rt, b"merge [--services-by-bearers] BASIC ADVANCED OUT");
    }
    treat_argument(
        rt,
        first,
        &|rt, path, object| { merge_with(rt, by, path, object) },
    )
}

fn no_such_command(rt: &HostRuntime, command: &[u8]) -> Ended {
    complain(rt, b"spi: no such command: ");
    complain(rt, command);
    complain(rt, b"\n");
    usage_of_all(rt)
}

// `count` counts the program's name and the command too.
fn obey(rt: &HostRuntime, command: &[u8], count: usize) -> Ended {
    match command {
        b"check" if count > 2 => treat_all(rt, 2, count, &check),
        b"check" => usage(rt, b"check FILE.."),
        b"gate" => gate_all(rt, count),
        b"list" => treat_first(rt, count == 3, b"list FILE", &list),
        b"show" => treat_first(rt, count == 3, b"show FILE", &outline),
        b"normal" => treat_first(rt, count == 4, b"normal FILE OUT", &save_normal),
        b"pack" => treat_first(rt, count == 4, b"pack FILE OUT", &save_packed),
        b"xml" => treat_first(rt, count == 4, b"xml FILE OUT", &save_xml),
        b"edit" => treat_first(rt, count == 4, b"edit FILE OUT [EDIT]", &save_edited),
        b"compare" => treat_first(
            rt,
            count == 4,
            b"compare FILE FILE, or DIR DIR",
            &compare_with,
        ),
        b"merge" => merge_files(rt, count),
        b"help" => {
            help(rt);
            Ok(())
        }
        _ => no_such_command(rt, command),
    }
}

fn run(rt: &HostRuntime) -> Ended {
    let count = argument_count(rt);
    if count < 2 {
        return usage_of_all(rt);
    }
    let mut word = [0u8; NAME];
    let command = argument(rt, 1, &mut word);
    obey(rt, command, count)
}

fn main(rt: HostRuntime) {
    let status = status_of(run(&rt));
    let _ = print!(rt; "spi status {status}\n");
}
