// The words of the command line.
ghost use Rattle.std.specs.Prelude.{◌<◌, IfOk, IfSome};
ghost use Rattle.osc_words.specs.Ranges.{AreInRange};

use crate::links::Links;
use jiff_core::Offset;
use jiff_fmt::offset::Parser;
use osc_links::Bounds;
use osc_show::{Paging, Showing, Zone};
use osc_words::{Capacities, LiveCommand, live_command_of};
use std::alloc::{AllocError, Global};
use std::net::Ipv4Addr;

/// The port of a page where none is said.
const PAGE_PORT: u16 = 8080;

/// What the words say.
#[derive(Drop)]
pub(crate) enum Said {
    Help,
    Refused,
    /// A script is to be written that carries on the recording in this file.
    Carry(String),
    Show(Showing),
    Draw(Showing),
    Page(Paging),
    /// This word isn't what its option takes.
    Wrong(Taken, String),
    Play(Playing),
    /// A moment is to be written as a time tag, or a time tag as a moment.
    Moment(String),
    Serve(Serving),
}

/// What an option takes.
#[derive(Clone, Copy)]
pub(crate) enum Taken {
    Zone,
    Port,
    Address,
}

/// What is done with the cues of a sheet.
#[derive(Clone, Copy)]
pub(crate) enum Way {
    /// What would be sent is printed.
    Check,
    /// They are written as a score.
    Score,
    /// They are sent.
    Send,
}

/// Which cues are to be played, and how.
#[derive(Drop)]
pub(crate) struct Playing {
    pub(crate) way: Way,
    pub(crate) patch: String,
    /// The file for the recording, if there is to be one.
    pub(crate) file: Option<String>,
    /// Cues that have gone by are left out.
    pub(crate) skip: bool,
    /// A file that is there is overwritten.
    pub(crate) force: bool,
    /// The moment of the sheet at which play begins, if one is said.
    pub(crate) from: Option<String>,
}

/// What is to be served, and how.
#[derive(Drop)]
pub(crate) struct Serving {
    pub(crate) names: Names,
    pub(crate) links: Links,
    pub(crate) caps: Capacities,
    /// The size of a recording at which the show goes on in another, where one is said.
    pub(crate) size: Option<u32>,
    pub(crate) flags: Flags,
    ghost in_range: { AreInRange caps },
}

/// The names of the recording that is carried on, if one is, of the patch, and of the file for the
/// recording.
#[derive(Drop)]
pub(crate) struct Names {
    pub(crate) old: Option<String>,
    pub(crate) patch: String,
    pub(crate) file: String,
}

/// What `oscd serve` has no word for.
#[derive(Clone, Copy)]
pub(crate) struct Flags {
    /// Refusals alone are shown.
    pub(crate) quiet: bool,
    /// A file that is there is overwritten.
    pub(crate) force: bool,
}

/// Reads `serve ..`, `show ..`, `play ..`, `moment WORD` or `carry FILE`.
pub(crate) fn read_words(alloc: Global, all: Vec<String>) -> Result<Said, AllocError> {
    if all.iter().any(|word| word.as_str() == "--help") {
        return Ok(Said::Help);
    }
    let command = match all.first() {
        Some(word) => word.as_str(),
        None => "",
    };
    match command {
        "show" => showing_of(alloc, all),
        "draw" => drawing_of(alloc, all),
        "page" => paging_of(alloc, all),
        "play" => playing_of(alloc, all),
        "moment" => moment_word(alloc, &all),
        "carry" => Ok(match file_name(alloc, &all)? {
            Some(file) => Said::Carry(file),
            None => Said::Refused,
        }),
        _ => serving_of(alloc, all),
    }
}

/// Reads `serve [OPTIONS] [--quiet] [--force] [--carry OLD] [--turn-over BYTES] PATCH FILE`, of
/// which all but these flags, their words and PATCH are the words of `oscd serve`.
fn serving_of(alloc: Global, all: Vec<String>) -> Result<Said, AllocError> {
    let Split {
        flags,
        old,
        size,
        mut words,
        takes,
    } = split_words(alloc, all)?;
    let (Takes::Nothing, Ok(size)) = (takes, size_in(size.as_ref())) else {
        return Ok(Said::Refused);
    };
    let Some(names) = split_names(alloc, &mut words, old)? else {
        return Ok(Said::Refused);
    };
    match serve_words(alloc, &words)? {
        Some((links, caps)) => Ok(Said::Serve(Serving {
            names,
            links,
            caps,
            size,
            flags,
        })),
        None => Ok(Said::Refused),
    }
}

/// The links and the limits, where the words are those of `oscd serve`. Where no count of packets
/// and no idle time is said a link doesn't end by itself.
fn serve_words(alloc: Global, words: &[String]) -> Result<Option<(Links, Capacities)>, AllocError>
    ensures { IfOk result (λ read. IfSome read (λ both. AreInRange both.1)) }
{
    let Some(
        LiveCommand::Serve {
            transport,
            port,
            links,
            count,
            idle,
            caps,
        },
    ) = live_command_of(alloc, words)?
    else {
        return Ok(None);
    };
    let bounds = Bounds {
        count: if_said(words, "--count", count),
        idle: if_said(words, "--idle", idle),
    };
    let links = Links {
        transport,
        port,
        count: links,
        bounds,
    };
    Ok(Some((links, caps)))
}

/// Which option was said that takes the next word.
#[derive(Clone, Copy)]
enum Takes {
    Nothing,
    Old,
    Size,
}

/// What `oscd serve` has no words for, and the words that are left.
#[derive(Drop)]
struct Split {
    flags: Flags,
    old: Option<String>,
    size: Option<String>,
    words: Vec<String>,
    /// The last word is an option that takes another one.
    takes: Takes,
}

/// Takes what `oscd serve` has no words for out of the words.
fn split_words(alloc: Global, all: Vec<String>) -> Result<Split, AllocError> {
    let mut split = Split {
        flags: Flags {
            quiet: false,
            force: false,
        },
        old: None,
        size: None,
        words: Vec::new(alloc),
        takes: Takes::Nothing,
    };
    for word in all {
        take_word(&mut split, word)?;
    }
    Ok(split)
}

fn take_word(split: &mut Split, word: String) -> Result<(), AllocError> {
    let takes = split.takes;
    split.takes = Takes::Nothing;
    match takes {
        Takes::Old => split.old = Some(word),
        Takes::Size => split.size = Some(word),
        Takes::Nothing if take_own_option(split, &word) => {}
        Takes::Nothing => split.words.push(word)?,
    }
    Ok(())
}

/// Takes an option that `oscd serve` doesn't have, and answers whether the word is one.
fn take_own_option(split: &mut Split, word: &str) -> bool {
    match word {
        "--carry" => split.takes = Takes::Old,
        "--turn-over" => split.takes = Takes::Size,
        "--quiet" => split.flags.quiet = true,
        "--force" => split.flags.force = true,
        _ => return false,
    }
    true
}

/// The size that was said, if one was; the `Err` says that the word is no number of bytes.
fn size_in(word: Option<&String>) -> Result<Option<u32>, ()> {
    match word {
        None => Ok(None),
        Some(word) if word.as_bytes().iter().all(|byte| byte.is_ascii_digit()) => {
            match word.parse::<u32>() {
                Ok(size) if size > 0 => Ok(Some(size)),
                _ => Err(()),
            }
        }
        Some(_) => Err(()),
    }
}

/// What is to be shown, where the words are
/// `show [--utc | --zone ZONE] [--relative] [--callers] [--whole] [--runs] [--ticks] [--quiet]
/// [--follow] [--from TIME] [--to TIME] [--only PATTERN] FILE..`.
fn showing_of(alloc: Global, words: Vec<String>) -> Result<Said, AllocError> {
    let mut read = ShowWords {
        showing: Showing {
            files: Vec::new(alloc),
            zone: Zone::Machine,
            ticks: false,
            quiet: false,
            relative: false,
            callers: false,
            whole: false,
            runs: false,
            follow: false,
            from: None,
            to: None,
            only: None,
        },
        no_zone: None,
        takes: ShowTakes::Option,
        is_wrong: false,
    };
    for word in words.into_iter().skip(1) {
        take_show_word(&mut read, word)?;
    }
    let ShowWords {
        showing,
        no_zone,
        takes,
        is_wrong,
    } = read;
    if is_wrong || !matches!(takes, ShowTakes::More) || !can_follow(&showing) {
        return Ok(Said::Refused);
    }
    match no_zone {
        Some(word) => Ok(Said::Wrong(Taken::Zone, word)),
        None => Ok(Said::Show(showing)),
    }
}

/// What is to be drawn, where the words are
/// `draw [--utc | --zone ZONE] [--from TIME] [--to TIME] FILE..`.
fn drawing_of(alloc: Global, words: Vec<String>) -> Result<Said, AllocError> {
    Ok(match showing_of(alloc, words)? {
        Said::Show(showing) => drawn(showing),
        Said::Wrong(taken, word) => Said::Wrong(taken, word),
        _refused => Said::Refused,
    })
}

/// What is shown is to be drawn, where that can be.
fn drawn(showing: Showing) -> Said {
    if is_drawn(&showing) {
        Said::Draw(showing)
    } else {
        Said::Refused
    }
}

/// Whether no option is said but those of a zone and of times.
fn is_drawn(showing: &Showing) -> bool {
    let is_told = showing.ticks || showing.relative || showing.callers || showing.whole;
    let is_left_out = showing.runs || showing.quiet || showing.only.is_some();
    !is_told && !is_left_out && !showing.follow
}

/// Whether one recording is to be shown as a whole, line by line, if it is to be followed.
fn can_follow(showing: &Showing) -> bool {
    let is_part = showing.from.is_some() || showing.to.is_some() || showing.only.is_some();
    !showing.follow || (!is_part && !showing.runs && showing.files.len() == 1)
}

/// The words of `show` that were read so far.
#[derive(Drop)]
struct ShowWords {
    showing: Showing,
    /// The word after `--zone`, where it is none.
    no_zone: Option<String>,
    takes: ShowTakes,
    is_wrong: bool,
}

/// What the next word of `show` can be.
#[derive(Clone, Copy)]
enum ShowTakes {
    /// An option, or the first FILE.
    Option,
    From,
    To,
    Only,
    Zone,
    /// Another FILE.
    More,
}

fn take_show_word(read: &mut ShowWords, word: String) -> Result<(), AllocError> {
    let takes = read.takes;
    read.takes = ShowTakes::Option;
    match takes {
        ShowTakes::From => read.showing.from = Some(word),
        ShowTakes::To => read.showing.to = Some(word),
        ShowTakes::Only => read.showing.only = Some(word),
        ShowTakes::Zone => set_zone(read, word),
        ShowTakes::Option if take_show_option(read, &word) => {}
        ShowTakes::Option | ShowTakes::More => take_show_file(read, word)?,
    }
    Ok(())
}

/// Takes an option, and answers whether the word is one.
fn take_show_option(read: &mut ShowWords, word: &str) -> bool {
    if let Some(takes) = takes_after(word) {
        read.takes = takes;
        return true;
    }
    take_show_flag(&mut read.showing, word)
}

/// What the word after an option is, where the option takes one.
fn takes_after(option: &str) -> Option<ShowTakes> {
    match option {
        "--from" => Some(ShowTakes::From),
        "--to" => Some(ShowTakes::To),
        "--only" => Some(ShowTakes::Only),
        "--zone" => Some(ShowTakes::Zone),
        _ => None,
    }
}

/// Takes an option that takes no word, and answers whether the word is one.
fn take_show_flag(showing: &mut Showing, word: &str) -> bool {
    match word {
        "--utc" => showing.zone = Zone::At(Offset::UTC),
        "--ticks" => showing.ticks = true,
        "--quiet" => showing.quiet = true,
        "--relative" => showing.relative = true,
        "--callers" => showing.callers = true,
        "--whole" => showing.whole = true,
        "--runs" => showing.runs = true,
        "--follow" => showing.follow = true,
        _ => return false,
    }
    true
}

/// Takes a FILE; what looks like an option is none.
fn take_show_file(read: &mut ShowWords, word: String) -> Result<(), AllocError> {
    if is_option(&word) {
        read.is_wrong = true;
    } else {
        read.showing.files.push(word)?;
        read.takes = ShowTakes::More;
    }
    Ok(())
}

/// Sets the zone, or keeps the word where it is none.
fn set_zone(read: &mut ShowWords, word: String) {
    match offset_in(word.as_bytes()) {
        Some(offset) => read.showing.zone = Zone::At(offset),
        None => read.no_zone = Some(word),
    }
}

/// How far a zone is ahead of UTC, where the text is `+01:00`, say, or `Z`.
fn offset_in(text: &[u8]) -> Option<Offset> {
    match Parser::new().subsecond(false).parse(text) {
        Ok((parsed, [])) => parsed.to_offset().ok(),
        _ => None,
    }
}

/// The words of `page` that were read so far.
#[derive(Drop)]
struct PageWords {
    paging: Paging,
    /// A word that isn't what its option takes.
    wrong: Option<(Taken, String)>,
    /// What the next word is, if an option takes it.
    takes: Option<Taken>,
    is_wrong: bool,
}

/// What is to be served, where the words are `page [--port N] [--address ADDRESS] FILE..`.
fn paging_of(alloc: Global, words: Vec<String>) -> Result<Said, AllocError> {
    let mut read = PageWords {
        paging: Paging {
            files: Vec::new(alloc),
            address: Ipv4Addr::LOCALHOST,
            port: PAGE_PORT,
        },
        wrong: None,
        takes: None,
        is_wrong: false,
    };
    for word in words.into_iter().skip(1) {
        take_page_word(&mut read, word)?;
    }
    let PageWords {
        paging,
        wrong,
        takes,
        is_wrong,
    } = read;
    if is_wrong || takes.is_some() || paging.files.is_empty() {
        return Ok(Said::Refused);
    }
    match wrong {
        Some((taken, word)) => Ok(Said::Wrong(taken, word)),
        None => Ok(Said::Page(paging)),
    }
}

fn take_page_word(read: &mut PageWords, word: String) -> Result<(), AllocError> {
    match read.takes.take() {
        Some(Taken::Port) => set_port(read, word),
        Some(_) => set_address(read, word),
        None if take_page_option(read, &word) => {}
        None if is_option(&word) => read.is_wrong = true,
        None => read.paging.files.push(word)?,
    }
    Ok(())
}

/// Takes an option, and answers whether the word is one.
fn take_page_option(read: &mut PageWords, word: &str) -> bool {
    match word {
        "--port" => read.takes = Some(Taken::Port),
        "--address" => read.takes = Some(Taken::Address),
        _ => return false,
    }
    true
}

/// Sets the port, or keeps the word where it is none.
fn set_port(read: &mut PageWords, word: String) {
    match word.parse::<u16>() {
        Ok(port) => read.paging.port = port,
        Err(_) => read.wrong = Some((Taken::Port, word)),
    }
}

/// Sets the address, or keeps the word where it is none.
fn set_address(read: &mut PageWords, word: String) {
    match Ipv4Addr::parse_ascii(word.as_bytes()) {
        Ok(address) => read.paging.address = address,
        Err(_) => read.wrong = Some((Taken::Address, word)),
    }
}

/// The words of `play` that were read so far.
#[derive(Drop)]
struct PlayWords {
    way: Option<Way>,
    skip: bool,
    force: bool,
    from: Option<String>,
    names: Vec<String>,
    /// The last word was `--from`, which takes another one.
    takes: bool,
    is_wrong: bool,
}

/// What is to be played, where the words are
/// `play [--check | --as-score] [--skip] [--from MOMENT] [--force] PATCH [FILE]`.
fn playing_of(alloc: Global, words: Vec<String>) -> Result<Said, AllocError> {
    let mut read = PlayWords {
        way: None,
        skip: false,
        force: false,
        from: None,
        names: Vec::new(alloc),
        takes: false,
        is_wrong: false,
    };
    for word in words.into_iter().skip(1) {
        take_play_word(&mut read, word)?;
    }
    let PlayWords {
        way,
        skip,
        force,
        from,
        mut names,
        takes,
        is_wrong,
    } = read;
    let way = way.unwrap_or(Way::Send);
    let file = if names.len() == 2 { names.pop() } else { None };
    let (Some(patch), true) = (names.pop(), names.is_empty()) else {
        return Ok(Said::Refused);
    };
    if takes || is_wrong || (file.is_some() && !matches!(way, Way::Send)) {
        return Ok(Said::Refused);
    }
    Ok(Said::Play(Playing {
        way,
        patch,
        file,
        skip,
        force,
        from,
    }))
}

fn take_play_word(read: &mut PlayWords, word: String) -> Result<(), AllocError> {
    if read.takes {
        read.takes = false;
        read.from = Some(word);
    } else if !take_play_option(read, &word) {
        read.names.push(word)?;
    }
    Ok(())
}

/// Takes an option, also one that there isn't, and answers whether the word is one.
fn take_play_option(read: &mut PlayWords, word: &str) -> bool {
    match word {
        "--check" => set_way(read, Way::Check),
        "--as-score" => set_way(read, Way::Score),
        "--skip" => read.skip = true,
        "--force" => read.force = true,
        "--from" => read.takes = true,
        _ if word.starts_with("--") => read.is_wrong = true,
        _ => return false,
    }
    true
}

/// Another way than the one that was said before is wrong.
fn set_way(read: &mut PlayWords, way: Way) {
    read.is_wrong = read.is_wrong || read.way.is_some();
    read.way = Some(way);
}

/// The moment, where the words are `moment WORD`.
fn moment_word(alloc: Global, words: &[String]) -> Result<Said, AllocError> {
    match words {
        [_, word] => Ok(Said::Moment(String::from_str(alloc, word)?)),
        _ => Ok(Said::Refused),
    }
}

fn is_option(word: &String) -> bool {
    word.as_str().starts_with("--")
}

/// A copy of FILE, where the words are a command and FILE.
fn file_name(alloc: Global, words: &[String]) -> Result<Option<String>, AllocError> {
    match words {
        [_, file] if !is_option(file) => Ok(Some(String::from_str(alloc, file)?)),
        _ => Ok(None),
    }
}

/// Takes PATCH, the word before the last, out of the words, and copies FILE, the last; there is
/// none in fewer than three.
fn split_names(
    alloc: Global,
    words: &mut Vec<String>,
    old: Option<String>,
) -> Result<Option<Names>, AllocError> {
    if words.len() < 3 {
        return Ok(None);
    }
    let patch = words.remove(words.len() - 2);
    match words.last() {
        Some(file) => {
            let file = String::from_str(alloc, file)?;
            Ok(Some(Names { old, patch, file }))
        }
        None => Ok(None),
    }
}

/// The number, if an option of this name is among the words, and else so many that nobody counts
/// them.
fn if_said(words: &[String], name: &str, number: u32) -> u32
    requires { 0 < number }
    ensures { 0 < result }
{
    if words.iter().any(|word| word.as_str() == name) {
        number
    } else {
        u32::MAX
    }
}
