//! The table of the commands and their arguments, which `cli` hands to `clap`.

use crate::texts::*;
use fs_linearize_text::CONFIGURATION_LIMIT;
use fs_sched::{DEPTH_LIMIT, RUN_LIMIT, SEED_LIMIT};
use fs_sched_find::SEARCH_LIMIT;
use fs_sched_outcomes::OUTCOME_LIMIT;

/// How an argument is written.
pub(crate) enum Form {
    /// `--NAME`.
    Flag,
    /// `--NAME` and a text, which help calls by this word.
    Text(&'static str),
    /// `--NAME` and a text, any number of times.
    Texts(&'static str),
    /// `--NAME` and a number, which help calls by this word, from the least to the most.
    Number(&'static str, u64, u64),
    /// `--NAME` and one of these words, which help lists and calls by this word.
    OneOf(&'static str, &'static [&'static str]),
    /// A word that can be explained; help lists them.
    Kind,
    /// One more such word, for which help lists nothing.
    SecondKind,
    /// The name of a file, after the command.
    File,
}

/// Whether an argument has to be there.
pub(crate) enum Need {
    /// It may be left out.
    Never,
    /// It is in each use of its command.
    Always,
    /// It may be left out where this other one is used.
    Unless(&'static str),
    /// It may be left out, and where it is used this other one has to be there.
    With(&'static str),
}

/// An argument of a command.
pub(crate) struct Argument {
    pub(crate) name: &'static str,
    pub(crate) form: Form,
    pub(crate) need: Need,
    /// Those that are not used with it.
    pub(crate) conflicts: &'static [&'static str],
    pub(crate) help: &'static str,
}

/// A command, with its arguments in the order in which help has them.
pub(crate) struct Row {
    pub(crate) name: &'static str,
    pub(crate) about: &'static str,
    pub(crate) usage: &'static str,
    pub(crate) statuses: &'static str,
    pub(crate) arguments: &'static [Argument],
}

// The commands as help has them one behind the other, in four lists: at one list of all the prover runs out of its steps.

/// The commands that run a script.
pub(crate) const RUNS: &[Row] = &[RUN, SEEDS, OUTCOMES];

/// Those that look for something in runs.
pub(crate) const SEARCHES: &[Row] = &[FIND, SHRINK, TREE];

/// Those that say whether what was done is lawful.
pub(crate) const VERDICTS: &[Row] = &[THREADS, CHECK, LINEARIZE];

/// Those that write a run in another form, or what a word means.
pub(crate) const ACCOUNTS: &[Row] = &[TRACE, DRAW, SCHEDULE, EXPLAIN];

const FILE: Argument = Argument {
    name: "file",
    form: Form::File,
    need: Need::Never,
    conflicts: &[],
    help: "The file that is read. Without it, or with `-`, standard input is read",
};

const ROBIN: Argument = Argument {
    name: "robin",
    form: Form::Flag,
    need: Need::Never,
    conflicts: &[],
    help: "One event of each thread in turn, in place of the script's schedule",
};

const SEED: Argument = Argument {
    name: "seed",
    form: Form::Number("N", 0, u64::MAX),
    need: Need::Never,
    conflicts: &["robin"],
    help: "Random threads with the seed N, 0 to 18446744073709551615, as `atomfs seeds` draws them",
};

const PRIORITIES: Argument = Argument {
    name: "priorities",
    form: Form::Number("DEPTH", 1, DEPTH_LIMIT),
    need: Need::With("seed"),
    conflicts: &["robin"],
    help: "In place of random threads, few turns by random priorities, for races of that depth: 2 is a lost update; 1 to 1000",
};

const FIRST_SEED: Argument = Argument {
    name: "seed",
    form: Form::Number("N", 0, SEED_LIMIT),
    need: Need::Always,
    conflicts: &[],
    help: "The seed of the first run, 0 to 9223372036854775807",
};

const BY_PRIORITIES: Argument = Argument {
    name: "priorities",
    form: Form::Number("DEPTH", 1, DEPTH_LIMIT),
    need: Need::Never,
    conflicts: &[],
    help: "In place of random threads, few turns by random priorities, for races of that depth: 2 is a lost update; 1 to 1000",
};

const JSON: Argument = Argument {
    name: "json",
    form: Form::Flag,
    need: Need::Never,
    conflicts: &[],
    help: "Writes objects of JSON, one a line",
};

const COLOR: Argument = Argument {
    name: "color",
    form: Form::OneOf("WHEN", &["auto", "always", "never"]),
    need: Need::Never,
    conflicts: &[],
    help: "When words are in colours. Without it, or with auto, on a terminal, unless NO_COLOR is set",
};

const FROM: Argument = Argument {
    name: "from",
    form: Form::Text("TREE"),
    need: Need::Never,
    conflicts: &[],
    help: "Starts at the tree in the file TREE: a tree text, or the start tree of a journal",
};

const WHERE: Argument = Argument {
    name: "where",
    form: Form::Text("WHAT"),
    need: Need::Always,
    conflicts: &[],
    help: "What the run has to have, as below",
};

const NEVER: Argument = Argument {
    name: "never",
    form: Form::Texts("WHAT"),
    need: Need::Never,
    conflicts: &["add"],
    help: "Status 1 if a run has WHAT, which `atomfs help find` explains. This option and the two below may be given several times",
};

const ALWAYS: Argument = Argument {
    name: "always",
    form: Form::Texts("WHAT"),
    need: Need::Never,
    conflicts: &["add"],
    help: "Status 1 if a run does not have WHAT",
};

const SOMETIMES: Argument = Argument {
    name: "sometimes",
    form: Form::Texts("WHAT"),
    need: Need::Never,
    conflicts: &["add"],
    help: "Status 1 if no run has WHAT",
};

const RUN: Row = Row {
    name: "run",
    about: "Runs a script and writes its journal, its tree and its counts",
    usage: "atomfs run [OPTIONS] [FILE]",
    statuses: RUN_STATUSES,
    arguments: &[ROBIN, SEED, PRIORITIES, FROM, COLOR, FILE],
};

const SEEDS: Row = Row {
    name: "seeds",
    about: "Runs a script with random schedules, checks the journal of each run and writes a line for each",
    usage: "atomfs seeds --seed <N> --runs <K> [OPTIONS] [FILE]",
    statuses: SEEDS_STATUSES,
    arguments: &[
        FIRST_SEED,
        Argument {
            name: "runs",
            form: Form::Number("K", 1, RUN_LIMIT),
            need: Need::Always,
            conflicts: &[],
            help: "How many runs, with the seeds N, N + 1, and so on, 1 to 10000",
        },
        BY_PRIORITIES,
        FROM,
        JSON,
        COLOR,
        FILE,
    ],
};

const OUTCOMES: Row = Row {
    name: "outcomes",
    about: "Runs a script with random schedules and writes a line for each different end, and how often it came",
    usage: "atomfs outcomes <--seed <N> --runs <K>|--add> [OPTIONS] [FILE]",
    statuses: OUTCOMES_STATUSES,
    arguments: &[
        Argument {
            name: "seed",
            form: Form::Number("N", 0, SEED_LIMIT),
            need: Need::Unless("add"),
            conflicts: &["add"],
            help: "The seed of the first run, 0 to 9223372036854775807",
        },
        Argument {
            name: "runs",
            form: Form::Number("K", 1, OUTCOME_LIMIT),
            need: Need::Unless("add"),
            conflicts: &["add"],
            help: "How many runs, with the seeds N, N + 1, and so on, 1 to 1000000",
        },
        Argument {
            name: "priorities",
            form: Form::Number("DEPTH", 1, DEPTH_LIMIT),
            need: Need::Never,
            conflicts: &["add"],
            help: "In place of random threads, few turns by random priorities, for races of that depth: 2 is a lost update; 1 to 1000",
        },
        Argument {
            name: "from",
            form: Form::Text("TREE"),
            need: Need::Never,
            conflicts: &["add"],
            help: "Starts at the tree in the file TREE: a tree text, or the start tree of a journal",
        },
        Argument {
            name: "trees",
            form: Form::Flag,
            need: Need::Never,
            conflicts: &["add"],
            help: "Writes the tree of each line after it",
        },
        Argument {
            name: "all",
            form: Form::Flag,
            need: Need::Never,
            conflicts: &[],
            help: "Writes the replies of all calls, not only of those that differ",
        },
        Argument {
            name: "add",
            form: Form::Flag,
            need: Need::Never,
            conflicts: &[],
            help: "Reads lines that --all wrote for pieces of a range of seeds, and adds them up",
        },
        NEVER,
        ALWAYS,
        SOMETIMES,
        JSON,
        COLOR,
        FILE,
    ],
};

const FIND: Row = Row {
    name: "find",
    about: "Finds the first random run of a script that has WHAT, and writes the script with the events of that run as its schedule",
    usage: "atomfs find --where <WHAT> --seed <N> --runs <K> [OPTIONS] [FILE]",
    statuses: FIND_STATUSES,
    arguments: &[
        WHERE,
        FIRST_SEED,
        Argument {
            name: "runs",
            form: Form::Number("K", 1, SEARCH_LIMIT),
            need: Need::Always,
            conflicts: &[],
            help: "At most so many runs, with the seeds N, N + 1, and so on, 1 to 1000000",
        },
        BY_PRIORITIES,
        FROM,
        JSON,
        FILE,
    ],
};

const SHRINK: Row = Row {
    name: "shrink",
    about: "Cuts calls and words of a script while its run still has WHAT, and writes what is left",
    usage: "atomfs shrink --where <WHAT> [OPTIONS] [FILE]",
    statuses: SHRINK_STATUSES,
    arguments: &[WHERE, FROM, FILE],
};

const TREE: Row = Row {
    name: "tree",
    about: "Reads a journal, or runs a script, and writes the tree that its commits make, or the commit that last changed what is at a path",
    usage: "atomfs tree [OPTIONS] [FILE]",
    statuses: TREE_STATUSES,
    arguments: &[
        Argument {
            name: "at",
            form: Form::Number("N", 0, u64::MAX),
            need: Need::Never,
            conflicts: &[],
            help: "The tree after the first N commits, in place of all",
        },
        Argument {
            name: "before",
            form: Form::Text("CALL"),
            need: Need::Never,
            conflicts: &["at"],
            help: "The tree before the commit of CALL",
        },
        Argument {
            name: "who",
            form: Form::Text("PATH"),
            need: Need::Never,
            conflicts: &["at", "before"],
            help: "The commit that last changed what is at PATH, in place of a tree",
        },
        ROBIN,
        SEED,
        PRIORITIES,
        FILE,
    ],
};

const THREADS: Row = Row {
    name: "threads",
    about: "Runs each thread of a script on a real thread, without its schedule, and writes `lawful calls` and their number, or a fault",
    usage: "atomfs threads [OPTIONS] [FILE]",
    statuses: THREADS_STATUSES,
    arguments: &[
        Argument {
            name: "journal",
            form: Form::Flag,
            need: Need::Never,
            conflicts: &[],
            help: "Writes the journal of their calls in place of the line",
        },
        COLOR,
        FILE,
    ],
};

const CHECK: Row = Row {
    name: "check",
    about: "Reads a journal and writes `lawful`, or the place and the kind of its first fault",
    usage: "atomfs check [OPTIONS] [FILE]",
    statuses: CHECK_STATUSES,
    arguments: &[JSON, COLOR, FILE],
};

const LINEARIZE: Row = Row {
    name: "linearize",
    about: "Reads a history and writes it with its commits, a lawful journal, or the first return that nothing explains",
    usage: "atomfs linearize [OPTIONS] [FILE]",
    statuses: LINEARIZE_STATUSES,
    arguments: &[
        Argument {
            name: "front",
            form: Form::Flag,
            need: Need::Never,
            conflicts: &[],
            help: "In place of `none`, writes the journal up to that return, for `atomfs draw`",
        },
        Argument {
            name: "draw",
            form: Form::Flag,
            need: Need::Never,
            conflicts: &["front"],
            help: "Draws that journal, or the lawful one: a picture, as of `atomfs draw`",
        },
        Argument {
            name: "html",
            form: Form::Flag,
            need: Need::Never,
            conflicts: &["front", "draw"],
            help: "The same as a page that plays it in a browser",
        },
        Argument {
            name: "many",
            form: Form::Flag,
            need: Need::Never,
            conflicts: &["front", "draw", "html"],
            help: "Reads several histories, each with its header line, and writes a line for each, and counts",
        },
        Argument {
            name: "core",
            form: Form::Flag,
            need: Need::Never,
            conflicts: &["front", "draw", "html", "many"],
            help: "If a history has no order, writes the history of the calls that show it, of which none can go",
        },
        Argument {
            name: "as",
            form: Form::Text("TREE"),
            need: Need::Never,
            conflicts: &[],
            help: "Reads each error that is returned by the table of TREE, as below",
        },
        Argument {
            name: "learn",
            form: Form::Flag,
            need: Need::Never,
            conflicts: &["front", "draw", "html", "core", "as", "failing", "limit"],
            help: "Reads histories of one thread each, and writes a table for --as that explains them",
        },
        Argument {
            name: "failing",
            form: Form::Text("DIR"),
            need: Need::Never,
            conflicts: &["front", "draw", "html", "core"],
            help: "As --many, and writes each history that is not lawful to a file of its own in DIR",
        },
        Argument {
            name: "limit",
            form: Form::Number("N", 1, CONFIGURATION_LIMIT),
            need: Need::Never,
            conflicts: &[],
            help: "At most so many configurations in the search, 1 to 1000000000; without this option 1000000",
        },
        COLOR,
        FILE,
    ],
};

const TRACE: Row = Row {
    name: "trace",
    about: "Runs a script and writes in words what each event did, or reads a journal and writes its entries in words",
    usage: "atomfs trace [OPTIONS] [FILE]",
    statuses: TRACE_STATUSES,
    arguments: &[
        ROBIN,
        SEED,
        PRIORITIES,
        Argument {
            name: "every",
            form: Form::Flag,
            need: Need::Never,
            conflicts: &[],
            help: "Writes a line for each event, also for idle turns and repeated waits",
        },
        Argument {
            name: "json",
            form: Form::Flag,
            need: Need::Never,
            conflicts: &[],
            help: "Writes objects of JSON, one a line, in place of words",
        },
        COLOR,
        FILE,
    ],
};

const DRAW: Row = Row {
    name: "draw",
    about: "Runs a script, or reads a journal, and writes a picture of it, an SVG file, or a page that plays it",
    usage: "atomfs draw [OPTIONS] [FILE] > PICTURE",
    statuses: DRAW_STATUSES,
    arguments: &[
        ROBIN,
        SEED,
        PRIORITIES,
        Argument {
            name: "around",
            form: Form::Number("NUMBER", 0, u64::MAX),
            need: Need::Never,
            conflicts: &[],
            help: "Only the call of this number in the run (a trace says it where the call begins) or in the journal, and those that overlap it or help",
        },
        Argument {
            name: "width",
            form: Form::Number("PIXELS", 320, 16_384),
            need: Need::Never,
            conflicts: &[],
            help: "How wide the picture is, 320 to 16384 pixels: one of 560 can be read on a phone",
        },
        Argument {
            name: "fold",
            form: Form::Flag,
            need: Need::Never,
            conflicts: &[],
            help: "Each wait is one pale part, as with more than eight threads",
        },
        Argument {
            name: "html",
            form: Form::Flag,
            need: Need::Never,
            conflicts: &["around", "width", "fold"],
            help: "A page in place of the picture: one file that plays all events in a browser, without a network",
        },
        FILE,
    ],
};

const SCHEDULE: Row = Row {
    name: "schedule",
    about: "Runs a script and writes it again, with the events of the run as its schedule",
    usage: "atomfs schedule [OPTIONS] [FILE]",
    statuses: SCHEDULE_STATUSES,
    arguments: &[ROBIN, SEED, PRIORITIES, FILE],
};

const EXPLAIN: Row = Row {
    name: "explain",
    about: "Writes what the words of a message mean, and what to write instead",
    usage: "atomfs explain <KIND> [KIND]",
    statuses: EXPLAIN_STATUSES,
    arguments: &[
        Argument {
            name: "kind",
            form: Form::Kind,
            need: Need::Always,
            conflicts: &[],
            help: "A word of a message or a verdict",
        },
        Argument {
            name: "second",
            form: Form::SecondKind,
            need: Need::Never,
            conflicts: &[],
            help: "Another one, as the second word of `BadPath TrailingSlash`",
        },
    ],
};
