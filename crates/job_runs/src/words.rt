//! The command line read as a job, or as none.

ghost use Rattle.std.specs.Prelude.{◌≡◌, ◌≤◌, true, map, string_bytes, IfSome};
ghost use Rattle.work_pieces.specs.declared.TheConstants.{MOST_WORKERS};
ghost use Rattle.job_runs.specs.JobWords.{job, drill_job, drill_of, upgrade_job, with_options, job_of, IsLoad};
ghost use Rattle.job_runs.specs.JobWords.{choices_of, choose, choose_exchanges, no_choices, structure_of, workers_of, number_within};
ghost use Rattle.named_index.specs.Structures.{counts};

use fixed_box::SLOTS;
use frame_player::Options;
use made_scene::MOST_FRAMES;
use named_index::Structure;
use scene_words::numeral;
use work_pieces::MOST_WORKERS;

/// What the program is to do.
#[derive(Clone, Copy, Debug, PartialEq, Eq)]
pub enum Task {
    /// Play the scene on standard input, and write its report.
    Play,
    /// Make a scene of 1 to `SLOTS` boxes and 1 to `MOST_FRAMES` frames, play it, and write a summary.
    Drill { seed: u64, boxes: u32, frames: u32 },
    /// Write the scene on standard input as a scene of version 2. It has no options.
    Upgrade,
}

/// What a command line asks for.
#[derive(Clone, Copy, Debug, PartialEq, Eq)]
pub struct Job {
    pub task: Task,
    pub structure: Structure,
    pub options: Options,
}

// The options that were named so far.
#[derive(Clone, Copy)]
pub(crate) struct Choices {
    pub structure: Option<Structure>,
    pub workers: Option<u32>,
    pub exchanges: bool,
}

/// The job of a command line without the program's name, and `None` where it has no meaning.
pub fn read_words(words: &[String]) -> Option<Job>
    ensures job { result ≡ job (map string_bytes words.now) }
    ensures workers { IfSome result (λ j. (1 ≤ j.options.workers) × (j.options.workers ≤ MOST_WORKERS)) }
    ensures counted { IfSome result (λ j. j.options.exchanges ≡ true → counts j.structure ≡ true) }
    ensures loads { IfSome result (λ j. IsLoad j.task) }
{
    let (word, more) = words.split_first()?;
    if word.as_str() == "play" {
        return with_options(Task::Play, more);
    }
    if word.as_str() == "drill" {
        return drill_job(more);
    }
    if word.as_str() == "upgrade" {
        return upgrade_job(more);
    }
    None
}

// An upgrade, which has no options.
fn upgrade_job(words: &[String]) -> Option<Job>
    ensures job { result ≡ upgrade_job (map string_bytes words.now) }
    ensures workers { IfSome result (λ j. (1 ≤ j.options.workers) × (j.options.workers ≤ MOST_WORKERS)) }
    ensures counted { IfSome result (λ j. j.options.exchanges ≡ true → counts j.structure ≡ true) }
    ensures loads { IfSome result (λ j. IsLoad j.task) }
{
    if !words.is_empty() {
        return None;
    }
    job_of(
        Task::Upgrade,
        Choices {
            structure: None,
            workers: None,
            exchanges: false,
        },
    )
}

// The three numbers of a drill, and its options.
fn drill_job(words: &[String]) -> Option<Job>
    ensures job { result ≡ drill_job (map string_bytes words.now) }
    ensures workers { IfSome result (λ j. (1 ≤ j.options.workers) × (j.options.workers ≤ MOST_WORKERS)) }
    ensures counted { IfSome result (λ j. j.options.exchanges ≡ true → counts j.structure ≡ true) }
    ensures loads { IfSome result (λ j. IsLoad j.task) }
{
    let [seed, boxes, frames, more @ ..] = words else {
        return None;
    };
    let task = drill_of(seed.as_bytes(), boxes.as_bytes(), frames.as_bytes())?;
    with_options(task, more)
}

fn drill_of(seed: &[u8], boxes: &[u8], frames: &[u8]) -> Option<Task>
    ensures task { result ≡ drill_of seed.now boxes.now frames.now }
    ensures loads { IfSome result (λ task. IsLoad task) }
{
    let seed = number_within(20, 0, u64::MAX, seed)?;
    let boxes = number_within(4, 1, u64::from(SLOTS), boxes)?;
    let frames = number_within(3, 1, u64::from(MOST_FRAMES), frames)?;
    Some(Task::Drill {
        seed,
        boxes: boxes as u32,
        frames: frames as u32,
    })
}

// One to `most` digits with a value from `least` to `greatest`.
fn number_within(most: usize, least: u64, greatest: u64, word: &[u8]) -> Option<u64>
    requires { most ≤ 20 }
    ensures number { result ≡ number_within most least greatest word.now }
    ensures within { IfSome result (λ n. (least ≤ n) × (n ≤ greatest)) }
{
    match numeral(10, most, word) {
        Some(number) if u128::from(least) <= number && number <= u128::from(greatest) => {
            Some(number as u64)
        }
        _ => None,
    }
}

// A task with its options.
fn with_options(task: Task, words: &[String]) -> Option<Job>
    requires load { IsLoad task }
    ensures job { result ≡ with_options task (map string_bytes words.now) }
    ensures workers { IfSome result (λ j. (1 ≤ j.options.workers) × (j.options.workers ≤ MOST_WORKERS)) }
    ensures counted { IfSome result (λ j. j.options.exchanges ≡ true → counts j.structure ≡ true) }
    ensures loads { IfSome result (λ j. IsLoad j.task) }
{
    job_of(task, read_options(words)?)
}

// The job of the options. Exchanges are shown of a structure that counts them alone.
fn job_of(task: Task, choices: Choices) -> Option<Job>
    requires workers { IfSome choices.workers (λ n. (1 ≤ n) × (n ≤ MOST_WORKERS)) }
    requires load { IsLoad task }
    ensures job { result ≡ job_of task choices }
    ensures workers { IfSome result (λ j. (1 ≤ j.options.workers) × (j.options.workers ≤ MOST_WORKERS)) }
    ensures counted { IfSome result (λ j. j.options.exchanges ≡ true → counts j.structure ≡ true) }
    ensures loads { IfSome result (λ j. IsLoad j.task) }
{
    let structure = choices.structure.unwrap_or(Structure::Sap);
    if choices.exchanges && structure != Structure::Sap {
        return None;
    }
    Some(Job {
        task,
        structure,
        options: Options {
            workers: choices.workers.unwrap_or(1),
            exchanges: choices.exchanges,
        },
    })
}

// The options in any order, each at most once.
fn read_options(words: &[String]) -> Option<Choices>
    ensures choices { result ≡ choices_of no_choices (map string_bytes words.now) }
    ensures workers { IfSome result (λ c. IfSome c.workers (λ n. (1 ≤ n) × (n ≤ MOST_WORKERS))) }
{
    let mut choices = Choices {
        structure: None,
        workers: None,
        exchanges: false,
    };
    let mut rest = words;
    'options: while let Some((word, more)) = rest.split_first() {
        if word.as_str() == "--exchanges" {
            choices = choose_exchanges(choices)?;
            rest = more;
        } else {
            let (value, later) = more.split_first()?;
            choices = choose(choices, word.as_str(), value.as_str())?;
            rest = later;
        }
    }
    Some(choices)
}

// The option of one word.
fn choose_exchanges(choices: Choices) -> Option<Choices>
    ensures choices { result ≡ choose_exchanges choices }
    ensures workers { IfSome result (λ c. c.workers ≡ choices.workers) }
{
    if choices.exchanges {
        None
    } else {
        Some(Choices {
            exchanges: true,
            ..choices
        })
    }
}

// One option of two words.
fn choose(choices: Choices, word: &str, value: &str) -> Option<Choices>
    requires { IfSome choices.workers (λ n. (1 ≤ n) × (n ≤ MOST_WORKERS)) }
    ensures choices { result ≡ choose choices word.now value.now }
    ensures workers { IfSome result (λ c. IfSome c.workers (λ n. (1 ≤ n) × (n ≤ MOST_WORKERS))) }
{
    match word {
        "--with" if choices.structure.is_none() => {
            let structure = read_structure(value)?;
            Some(Choices {
                structure: Some(structure),
                ..choices
            })
        }
        "--workers" if choices.workers.is_none() => {
            let workers = read_workers(value.as_bytes())?;
            Some(Choices {
                workers: Some(workers),
                ..choices
            })
        }
        _ => None,
    }
}

fn read_structure(word: &str) -> Option<Structure>
    ensures { result ≡ structure_of word.now }
{
    match word {
        "plain" => Some(Structure::Plain),
        "sap" => Some(Structure::Sap),
        "tree" => Some(Structure::Tree),
        "grid" => Some(Structure::Grid),
        _ => None,
    }
}

fn read_workers(word: &[u8]) -> Option<u32>
    ensures workers { result ≡ workers_of word.now }
    ensures within { IfSome result (λ n. (1 ≤ n) × (n ≤ MOST_WORKERS)) }
{
    let number = number_within(2, 1, u64::from(MOST_WORKERS), word)?;
    Some(number as u32)
}
