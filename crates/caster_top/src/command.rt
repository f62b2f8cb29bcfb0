//! The words of the command line.
ghost use Rattle.std.specs.Prelude.{◌≡◌, ◌&&◌, ◌-◌, ◌^◌, ◌∷◌, [], ℕ, List, Some, IfSome, IfNone, option_map};
ghost use Rattle.std.specs.List.{list_all};
ghost use Rattle.session_script.specs.Digits.{is_digit, is_number, number_of, at_most};
ghost use Rattle.caster_top.specs.Command.{AreOf, AreOfNoForm, FetchNothing, Form, KeepNothing, aim_of, form, form_of, form_of_four, form_of_three, form_of_two, is_path, casting_form, made_form, most_of, seed_of, start_of, task_of, texts};

// The most frames that a ring keeps.
const MAX_RING_FRAMES: u32 = 4096;

// The most frames of a session that is made.
const MAX_FRAMES: u32 = 10_000;

// The most rovers of one.
const MAX_ROVERS: u32 = 64;

// The most connections that a worker serves.
const MAX_SERVED: u32 = 1_000_000;

// The most connections of a session that is recorded.
const MAX_RECORDED: u32 = 256;

// The most bytes of a path, and of an address.
const MAX_PATH_BYTES: usize = 255;

/// What is done with a configuration.
#[derive(Clone, Copy)]
pub enum ConfigCommand {
    /// Its rules are tested.
    Check,
    /// Its sourcetable is written.
    Table,
    /// It is written as a document of version 2.
    Migrate,
}

/// How rovers start in a session.
#[derive(Clone, Copy)]
pub enum RoverStart {
    /// With the frames that come from then on.
    Cold,
    /// With a greeting before them: the last frames of the messages that a rover needs for the
    /// others.
    Warm,
}

/// What a caster does with its connections.
#[derive(Clone, Copy)]
pub enum CasterMode {
    /// Its workers serve them side by side.
    Serve,
    /// One thread serves them, and what happens is recorded.
    Record,
}

impl CasterMode {
    // The most connections that there may be: of each worker, or of the record.
    fn most(self) -> u32
        ensures { result ≡ most_of self }
    {
        match self {
            CasterMode::Serve => MAX_SERVED,
            CasterMode::Record => MAX_RECORDED,
        }
    }
}

/// A command that files and input decide alone.
#[derive(Clone, Copy)]
pub enum Offline<'a> {
    /// A script from the input is run over a ring of so many frames.
    Bare(u32),
    /// This is done with the configuration in the file of this path.
    Over(ConfigCommand, &'a str),
    /// A session from a file is run over the configuration in another: the paths of both.
    Replay {
        /// How rovers start in it.
        start: RoverStart,
        /// The configuration's.
        config: &'a str,
        /// The session's.
        session: &'a str,
    },
    /// A session is made of a number and run.
    Make {
        /// The number.
        seed: u64,
        /// How many frames it has.
        frames: u32,
        /// How many rovers it has.
        rovers: u32,
    },
}

/// A caster over the configuration in a file.
#[derive(Clone, Copy)]
pub struct Casting<'a> {
    /// What it does with its connections.
    pub task: CasterMode,
    /// The configuration's path.
    pub config: &'a str,
    /// The address that it listens at.
    pub addr: &'a str,
    /// How many connections each worker serves, or how many are recorded.
    pub limit: u32,
}

/// What the words ask for that is decided before any of it is written.
#[derive(Clone, Copy)]
pub enum Command<'a> {
    /// Something that needs no street.
    Offline(Offline<'a>),
    /// A caster.
    Cast(Casting<'a>),
}

/// The command that the words are, which ask for no fetch and for no caster that keeps serving, and
/// None where they are of no form.
pub fn command_of(words: &[String]) -> Option<Command<'_>>
    requires fetch { FetchNothing (texts words.now) }
    requires keep { KeepNothing (texts words.now) }
    ensures command { option_map form result ≡ form_of (texts words.now) }
    ensures form { IfSome result (λ command. AreOf (texts words.now) (form command)) }
    ensures none { IfNone result (AreOfNoForm (texts words.now)) }
{
    command_in(words)
}

/// The words that are read as a command are those of its form, and no others.
pub fn words_are_read_by_their_form()
    ensures each { (words : List (List ℕ)) (form : Form)
        → AreOf words form → form_of words ≡ Some form }
    ensures nothing_else { (words : List (List ℕ)) (form : Form)
        → form_of words ≡ Some form → AreOf words form }
{}

// Parses the words by how many they are: one to three behind the command's name.
fn command_in(words: &[String]) -> Option<Command<'_>>
    requires fetch { FetchNothing (texts words.now) }
    requires keep { KeepNothing (texts words.now) }
    ensures { option_map form result ≡ form_of (texts words.now) }
{
    match words {
        [name, word] => command_of_two(name.as_str(), word.as_str()),
        [name, first, second] => command_of_three(name.as_str(), first.as_str(), second.as_str()),
        [name, first, second, third] => command_of_four(
            name.as_str(),
            first.as_str(),
            second.as_str(),
            third.as_str(),
        ),
        [] | [_] => None,
        [_, _, _, _, _, ..] => None,
    }
}

// The command of a name and one word.
fn command_of_two<'a>(name: &str, word: &'a str) -> Option<Command<'a>>
    ensures { option_map form result ≡ form_of_two name.now word.now }
{
    if name == "bare" {
        return match number_within(MAX_RING_FRAMES, word) {
            Some(capacity) => Some(Command::Offline(Offline::Bare(capacity))),
            None => None,
        };
    }
    if !is_path(word) {
        return None;
    }
    match aim_of(name) {
        Some(aim) => Some(Command::Offline(Offline::Over(aim, word))),
        None => None,
    }
}

// The command of a name and two words.
fn command_of_three<'a>(name: &str, first: &'a str, second: &'a str) -> Option<Command<'a>>
    ensures { option_map form result ≡ form_of_three name.now first.now second.now }
{
    if !are_paths(first, second) {
        return None;
    }
    match start_of(name) {
        Some(start) => Some(Command::Offline(Offline::Replay {
            start,
            config: first,
            session: second,
        })),
        None => None,
    }
}

// The command of a name and three words.
fn command_of_four<'a>(
    name: &str,
    first: &'a str,
    second: &'a str,
    third: &str,
) -> Option<Command<'a>>
    requires { KeepNothing (name.now ∷ first.now ∷ second.now ∷ third.now ∷ []) }
    ensures { option_map form result ≡ form_of_four name.now first.now second.now third.now }
{
    if name == "make" {
        return make_of(first, second, third);
    }
    if name == "keep" {
        return None;
    }
    if !are_paths(first, second) {
        return None;
    }
    match task_of(name) {
        Some(task) => caster_of(task, first, second, third),
        None => None,
    }
}

// The making of a session of these numbers.
fn make_of<'a>(seed: &str, frames: &str, rovers: &str) -> Option<Command<'a>>
    ensures { option_map form result ≡ made_form (seed_of seed.now)
        (at_most 10000 (number_of frames.now)) (at_most 64 (number_of rovers.now)) }
{
    let Some(seed) = seed_of(seed) else {
        return None;
    };
    let Some(frames) = number_within(MAX_FRAMES, frames) else {
        return None;
    };
    let Some(rovers) = number_within(MAX_ROVERS, rovers) else {
        return None;
    };
    Some(Command::Offline(Offline::Make {
        seed,
        frames,
        rovers,
    }))
}

// The caster of this task over this configuration at this address, with this limit.
fn caster_of<'a>(
    task: CasterMode,
    config: &'a str,
    addr: &'a str,
    limit: &str,
) -> Option<Command<'a>>
    ensures { option_map form result ≡ casting_form (Some task) config.now addr.now limit.now }
{
    match number_within(task.most(), limit) {
        Some(limit) => Some(Command::Cast(Casting {
            task,
            config,
            addr,
            limit,
        })),
        None => None,
    }
}

// What a command of this name does with a configuration.
fn aim_of(name: &str) -> Option<ConfigCommand>
    ensures { result ≡ aim_of name.now }
{
    match name {
        "check" => Some(ConfigCommand::Check),
        "table" => Some(ConfigCommand::Table),
        "migrate" => Some(ConfigCommand::Migrate),
        _ => None,
    }
}

// How rovers start in a session for a command of this name.
fn start_of(name: &str) -> Option<RoverStart>
    ensures { result ≡ start_of name.now }
{
    match name {
        "replay" => Some(RoverStart::Cold),
        "warm" => Some(RoverStart::Warm),
        _ => None,
    }
}

// The task of a caster for a command of this name.
fn task_of(name: &str) -> Option<CasterMode>
    ensures { result ≡ task_of name.now }
{
    match name {
        "serve" => Some(CasterMode::Serve),
        "record" => Some(CasterMode::Record),
        _ => None,
    }
}

// The word can be a path.
fn is_path(word: &str) -> bool
    ensures { result ≡ is_path word.now }
{
    1 <= word.len() && word.len() <= MAX_PATH_BYTES
}

/// Both words can be paths.
pub fn are_paths(first: &str, second: &str) -> bool
    ensures { result ≡ (is_path first.now && is_path second.now) }
{
    is_path(first) && is_path(second)
}

/// The number that the word is, from 1 to this limit, in plain decimal digits; None of another
/// word.
pub fn number_within(limit: u32, word: &str) -> Option<u32>
    ensures { result ≡ at_most limit (number_of word.now) }
{
    if !is_plain_number(word.as_bytes()) {
        return None;
    }
    let Ok(number) = word.parse::<u32>() else {
        return None;
    };
    if number <= limit { Some(number) } else { None }
}

// The number that the word is, from 1 on and below 2^64.
fn large_number(word: &str) -> Option<u64>
    ensures { result ≡ at_most (2 ^ 64 - 1) (number_of word.now) }
{
    if !is_plain_number(word.as_bytes()) {
        return None;
    }
    match word.parse::<u64>() {
        Ok(number) => Some(number),
        Err(_) => None,
    }
}

// The number below 2^64 that the word is.
fn seed_of(word: &str) -> Option<u64>
    ensures { result ≡ seed_of word.now }
{
    if word == "0" {
        Some(0)
    } else {
        large_number(word)
    }
}

// The word has digits alone, and the first is not 0.
fn is_plain_number(word: &[u8]) -> bool
    ensures { result ≡ is_number word.now }
{
    !word.is_empty() && word[0] != b'0' && are_digits(word)
}

// Each byte is a digit.
fn are_digits(word: &[u8]) -> bool
    ensures { result ≡ list_all is_digit word.now }
{
    word.iter().all(|byte| 48 <= *byte && *byte <= 57)
}
