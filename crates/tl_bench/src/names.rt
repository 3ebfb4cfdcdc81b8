//! Calls on the namespace, in a tree of directories and in one directory.
ghost use Rattle.std.specs.Prelude.{◌≡◌, ◌+◌, ◌<◌, ◌≤◌, ◌^◌, All, length, reverse, vec_len, IfOk};
ghost use Rattle.tl_model.specs.Namespace.{Names as NameList};
ghost use Rattle.tl_model.specs.History.{names_after};
ghost use Rattle.tl_model.specs.Replies.{reply_to};
ghost use Rattle.tl_names.specs.Answers.{HasFewOutputs};
ghost use Rattle.tl_names.specs.Standing.{StandsFor};
ghost use Rattle.tl_bench.specs.Calls.{done_of, is_done, names_by};

use crate::pace::Pace;
use std::alloc::{AllocError, Global};
use std::io::{self, ErrorKind};
use std::rt::Clock;
use std::time::Instant;
use tl_io::FalseTicket;
use tl_model::{Command, Reply};
use tl_names::Names;
use tl_types::{Digest, NoMemory, Path, RecordId};

/// How the names are laid out, and the word that is printed for it.
const LAYOUTS: [(Layout, &str); 2] = [(Layout::Tree, "tree"), (Layout::Flat, "flat")];

/// What is asked in turn, and the word that is printed for it.
const ASKS: [(Ask, &str); 3] = [
    (Ask::Mkdir, "mkdir"),
    (Ask::Put, "put"),
    (Ask::Stat, "stat"),
];

/// The most directories between `/` and a name.
const DEPTH: u32 = 16;

/// How the names are laid out.
#[derive(Clone, Copy)]
enum Layout {
    /// Each directory has two directories and two files, level by level.
    Tree,
    /// All stand in `/`, in no order.
    Flat,
}

/// What a call asks.
#[derive(Clone, Copy)]
enum Ask {
    Mkdir,
    Put,
    Stat,
}

/// Makes so many directories, then as many files, and asks what each file is: in a tree, and in one directory. Prints
/// how many calls were done; on standard error how long they took.
pub(crate) fn measure(
    rt: &(impl Clock + Print + Eprint),
    alloc: Global,
    many: u32,
) -> io::Result<()>
    requires { many ≤ 131070 }
{
    for (layout, laid) in LAYOUTS {
        let mut names = Names::new(alloc).map_err(|_| AllocError)?;
        for (ask, asked) in ASKS {
            let commands = commands_of(alloc, layout, ask, many)?;
            let start = Instant::now(rt)?;
            let count = call_all(alloc, &mut names, commands.as_slice()).map_err(|_| AllocError)?;
            let time = start.elapsed(rt)?;
            let pace = Pace { count, time };
            println!(rt; "names {many} {laid} {asked} done {count}")?;
            eprintln!(rt; "  in calls: {pace}")?;
        }
    }
    Ok(())
}

/// Does the commands in order, and answers how many were done. A put that is done becomes the record whose number is its
/// place among the commands.
pub(crate) fn call_all(
    alloc: Global,
    names: &mut Names,
    commands: &[Command<FalseTicket>],
) -> Result<u64, NoMemory>
    requires count { length commands.now < 2 ^ 32 }
    requires few { All HasFewOutputs commands.now }
    ensures done { (list : NameList) → StandsFor names.old.dirs list →
        IfOk result (λ count. count ≡ done_of (reverse commands.now) list) }
    ensures names { (list : NameList) → StandsFor names.old.dirs list →
        IfOk result (λ count. StandsFor names.new.dirs (names_by (reverse commands.now) list)) }
{
    let mut count = 0;
    for (place, command) in commands.iter().enumerate() {
        if call(alloc, names, command, place)? {
            count += 1;
        }
    }
    Ok(count)
}

// Does a command, and answers whether it was done.
fn call(
    alloc: Global,
    names: &mut Names,
    command: &Command<FalseTicket>,
    place: usize,
) -> Result<bool, NoMemory>
    requires place { place < 2 ^ 32 }
    requires few { HasFewOutputs command.now }
    ensures done { (list : NameList) → StandsFor names.old.dirs list →
        IfOk result (λ done. done ≡ is_done (reply_to list place command.now)) }
    ensures names { (list : NameList) → StandsFor names.old.dirs list →
        IfOk result (λ done. StandsFor names.new.dirs (names_after (reply_to list place command.now) command.now list)) }
{
    let reply = names.apply(alloc, command, RecordId(place as u32))?;
    Ok(is_done(&reply))
}

// Whether what was asked is done or told.
fn is_done(reply: &Reply) -> bool
    ensures { result ≡ is_done reply.now }
{
    matches!(reply, Reply::Made(_) | Reply::Fine | Reply::Stated(_))
}

// So many commands that ask this.
fn commands_of(
    alloc: Global,
    layout: Layout,
    ask: Ask,
    many: u32,
) -> io::Result<Vec<Command<FalseTicket>>>
    requires { many ≤ 131070 }
    ensures count { IfOk result (λ commands. vec_len commands ≡ many) }
    ensures few { IfOk result (λ commands. All HasFewOutputs commands.items) }
{
    let mut commands = Vec::new(alloc);
    for k in 0..many {
        let path = path_of(alloc, layout, ask, k)?;
        commands.push(command_of(ask, path))?;
    }
    Ok(commands)
}

// The command that asks this of a path.
fn command_of(ask: Ask, path: Path) -> Command<FalseTicket>
    ensures { HasFewOutputs result }
{
    match ask {
        Ask::Mkdir => Command::Mkdir { path },
        Ask::Put => Command::Put {
            path,
            len: 0,
            digest: Digest([0; 32]),
            ticket: FalseTicket,
        },
        Ask::Stat => Command::Stat { path },
    }
}

// The path of the directory, or of the file, with this number.
fn path_of(alloc: Global, layout: Layout, ask: Ask, k: u32) -> io::Result<Path>
    requires { k < 131070 }
{
    let letter = match ask {
        Ask::Mkdir => 'd',
        Ask::Put | Ask::Stat => 'f',
    };
    let parts = match layout {
        Layout::Tree => tree_parts(alloc, letter, k + 2)?,
        Layout::Flat => flat_parts(alloc, letter, k)?,
    };
    match Path::new(parts) {
        Some(path) => Ok(path),
        None => Err(io::Error::new(ErrorKind::InvalidInput, "no path")),
    }
}

// The components of a path in a tree: its node's number in binary, without the leading digit. Node 1 is `/`.
fn tree_parts(alloc: Global, letter: char, node: u32) -> Result<Vec<Vec<u8>>, AllocError> {
    let mut parts = Vec::new(alloc);
    for height in (1..DEPTH).rev() {
        let above = node >> height;
        if above > 1 {
            parts.push(part_of(alloc, 'd', above % 2)?)?;
        }
    }
    parts.push(part_of(alloc, letter, node % 2)?)?;
    Ok(parts)
}

// The one component of a path in `/`, in an order that has nothing to do with the numbers.
fn flat_parts(alloc: Global, letter: char, k: u32) -> Result<Vec<Vec<u8>>, AllocError> {
    let mut parts = Vec::new(alloc);
    parts.push(part_of(alloc, letter, k.wrapping_mul(2_654_435_761))?)?;
    Ok(parts)
}

// A letter and a number.
fn part_of(alloc: Global, letter: char, number: u32) -> Result<Vec<u8>, AllocError> {
    let part = format!(in alloc; "{letter}{number}")?;
    Ok(part.into_bytes())
}
