//! What the command line asks for, read of what `clap` matched.

ghost use Rattle.std.specs.Prelude.{◌≡◌, ◌≤◌, ◌++◌, ℕ, Bool, List, map, is_some, option_map, true, false, Some, None, IfSome, IfOk, OnOk, codes};
ghost use Rattle.std.specs.Option.{ForSome};
ghost use Rattle.clap.specs.Matches.{first_value, found_of, one_text, subcommand_name_of};
ghost use Rattle.fs_sched.specs.Schedules.{schedule_by};
ghost use Rattle.atomfs_arguments.specs.Commands.{AreNumbersOf, AreWithin, AsksBefore, AsksWho, IfDrawn, IsPolicyOf, IsFlagOf, IsFormOf, IsFormatOf, IsNumberOf, IsSomePicture, IsViewOf, IsWithin, SearchesFor, ShrinksFor, TracesSo, CountsEnds, DrawsRuns, all_said, color_named, is_on, name_of, said, said_by};
ghost use Rattle.fs_explain.specs.Topics.{word_of};

use clap::ArgMatches;
use fs_draw::View;
use fs_explain::{Topic, topic_of};
use fs_linearize_text::CONFIGURATION_LIMIT;
use fs_sched::{Policy, RUN_LIMIT, SEED_LIMIT, Schedule};
use fs_sched_find::SEARCH_LIMIT;
use fs_sched_outcomes::{Form, OUTCOME_LIMIT, Quantifier};
use fs_trace_replay::Asked;
use std::alloc::{AllocError, Global};

/// How many configurations `linearize` makes where no limit is given.
pub const CONFIGURATIONS: u64 = 1_000_000;

/// What is written of histories.
#[derive(Clone, Copy, Debug, PartialEq, Eq)]
pub enum Histories {
    /// The journal that explains one, or the line that says why there is none.
    Whole,
    /// The same; with `none` the journal up to the return that nothing explains.
    Front,
    /// Of histories one after the other a line each, and counts.
    Many,
    /// Of one without an order the calls that show it.
    Core,
    /// Of those of one thread each the table of errors that explains them.
    Learn,
}

/// When words are written in colours.
#[derive(Clone, Copy, Debug, PartialEq, Eq)]
pub enum Color {
    /// On a terminal, unless the environment asks for none.
    Auto,
    Always,
    Never,
}

impl Color {
    /// Whether there are colours, on a terminal or not, where the environment asks for none or does not.
    pub fn is_on(self, terminal: bool, no_color: bool) -> bool
        ensures { result ≡ is_on self terminal no_color }
    {
        match self {
            Color::Auto => terminal && !no_color,
            Color::Always => true,
            Color::Never => false,
        }
    }
}

/// How what comes of a command is written.
#[derive(Clone, Copy, Debug, PartialEq, Eq)]
pub enum Format {
    /// In words.
    Text,
    /// As objects of JSON, one a line.
    Json,
}

/// What is drawn.
#[derive(Clone, Copy, Debug, PartialEq, Eq)]
pub enum Drawing {
    /// A picture: what of it, and how.
    Picture(View),
    /// A page that plays the whole.
    Page,
}

/// What the command line asks for.
#[derive(Clone, Copy, Debug, PartialEq, Eq)]
pub enum Subcommand<'a> {
    /// A run of a script by a schedule; and the file that has the tree at which it starts, where that is more than the root.
    Run(Schedule, Option<&'a str>),
    /// Runs of a script that are drawn.
    Seeds(Drawn<'a>, Format),
    /// The ends of such runs, how often each came, and what is written of them.
    Outcomes(Drawn<'a>, Form),
    /// The same, added up from lines of pieces.
    AddedOutcomes(Form),
    /// The first of so many such runs that has what is said.
    Find(&'a str, Drawn<'a>, Format),
    /// A script without what its run does not need for what is said.
    Shrink(&'a str, Option<&'a str>),
    /// What is asked of the trees of a journal, or of a script's run by a schedule.
    Tree(Schedule, Asked<'a>),
    /// The calls of a script on real threads; and whether their journal is written.
    Threads(bool),
    /// The verdict on a journal.
    Check(Format),
    /// What is found of histories, if no more configurations are made than this, and how they are read and kept.
    Linearize(Histories, u64, Recorded<'a>),
    /// The events of a script's run with a schedule; whether all of them, or only those that are news; and how they are written.
    Trace(Schedule, bool, Format),
    /// What is drawn of a script's run by a schedule, or of a journal.
    Draw(Schedule, Drawing),
    /// A script again, with the events of its run by a schedule as its words.
    Schedule(Schedule),
    /// What one word of a message means, or two.
    Explain(Topic, Option<Topic>),
}

/// Runs that are drawn from a number, the next one, and so on: the number, how many, how, and the file that has the tree at which each
/// starts, where that is more than the root.
#[derive(Clone, Copy, Debug, PartialEq, Eq)]
pub struct Drawn<'a> {
    pub seed: u64,
    pub runs: u64,
    pub by: Policy,
    pub from: Option<&'a str>,
}

/// How histories are read, where those are kept that are not lawful, and how what is found of one is drawn.
#[derive(Clone, Copy, Debug, PartialEq, Eq)]
pub struct Recorded<'a> {
    /// The known tree, or the file with the table, that says what their tree replies.
    pub dialect: Option<&'a str>,
    /// The directory for those that are not lawful.
    pub failing: Option<&'a str>,
    /// What is drawn in the place of the journal.
    pub drawn: Option<Drawing>,
}

/// What is asserted of drawn runs, in words.
#[derive(Clone, Copy, Debug, PartialEq, Eq)]
pub struct Asserted<'a> {
    pub quantifier: Quantifier,
    pub text: &'a str,
}

/// What the command line asks for, and what is read.
#[derive(Drop)]
pub struct Invocation<'a> {
    /// What is asked for.
    pub command: Subcommand<'a>,
    /// The file that is named after it; `-` is the name of standard input.
    pub file: Option<&'a str>,
    /// What is asserted of the runs: that none has something, then that each has it, then that one has it.
    pub asserted: Vec<Asserted<'a>>,
    /// When words are written in colours.
    pub color: Color,
}

/// The number that the option with an identifier gives.
fn number_given<'a>(matches: &ArgMatches<'a>, id: &str) -> Option<u64>
    ensures given { (n : ℕ) → IsNumberOf (found_of matches.now) id.now n → result ≡ Some n }
    ensures none { one_text (found_of matches.now) id.now ≡ None → result ≡ None }
{
    matches.get_one::<u64>(id)
}

/// Whether the flag with an identifier is given.
fn flag_given<'a>(matches: &ArgMatches<'a>, id: &str) -> bool
    ensures { (given : Bool) → IsFlagOf (found_of matches.now) id.now given → result ≡ given }
{
    matches.get_flag(id)
}

/// When words are written in colours, by the word that says so.
fn color_named(word: &[u8]) -> Color
    ensures { result ≡ color_named word.now }
{
    if word == b"always".as_slice() {
        Color::Always
    } else if word == b"never".as_slice() {
        Color::Never
    } else {
        Color::Auto
    }
}

/// When words are written in colours.
fn color_of<'a>(matches: &ArgMatches<'a>) -> Color
    ensures given { (word : List ℕ) → first_value (found_of matches.now) (codes "color") ≡ Some word → result ≡ color_named word }
    ensures auto { first_value (found_of matches.now) (codes "color") ≡ None → result ≡ Color.Auto }
{
    match matches.get_str("color") {
        Some(word) => color_named(word.as_bytes()),
        None => Color::Auto,
    }
}

/// How what comes of a command is written.
fn format_of<'a>(matches: &ArgMatches<'a>) -> Format
    ensures { (format : Format) → IsFormatOf (found_of matches.now) format → result ≡ format }
{
    if matches.get_flag("json") {
        Format::Json
    } else {
        Format::Text
    }
}

/// How schedules are drawn.
fn policy_of<'a>(matches: &ArgMatches<'a>) -> Policy
    ensures { (by : Policy) → IsPolicyOf (found_of matches.now) by → result ≡ by }
{
    match number_given(matches, "priorities") {
        Some(depth) => Policy::Priorities(depth),
        None => Policy::Uniform,
    }
}

/// The schedule of a run.
fn schedule_of<'a>(matches: &ArgMatches<'a>) -> Schedule
    ensures robin { one_text (found_of matches.now) (codes "robin") ≡ Some (codes "true") → result ≡ Schedule.RoundRobin }
    ensures given { one_text (found_of matches.now) (codes "robin") ≡ Some (codes "false") → one_text (found_of matches.now) (codes "seed") ≡ None → result ≡ Schedule.Given }
    ensures drawn { (n : ℕ) (by : Policy) → one_text (found_of matches.now) (codes "robin") ≡ Some (codes "false") → IsNumberOf (found_of matches.now) (codes "seed") n
        → IsPolicyOf (found_of matches.now) by → result ≡ schedule_by by n }
{
    if matches.get_flag("robin") {
        return Schedule::RoundRobin;
    }
    match number_given(matches, "seed") {
        Some(seed) => policy_of(matches).schedule(seed),
        None => Schedule::Given,
    }
}

/// Numbers of drawn runs, where both are given and within their ranges.
fn within(seed: Option<u64>, runs: Option<u64>, most: u64) -> Option<(u64, u64)>
    ensures within { IfSome result (λ numbers. (numbers.0 ≤ SEED_LIMIT) × (1 ≤ numbers.1) × (numbers.1 ≤ most)) }
    ensures some { (first many : ℕ) → seed ≡ Some first → runs ≡ Some many → first ≤ SEED_LIMIT → 1 ≤ many → many ≤ most → result ≡ Some (first, many) }
{
    match (seed, runs) {
        (Some(first), Some(many)) if first <= SEED_LIMIT && 1 <= many && many <= most => {
            Some((first, many))
        }
        _ => None,
    }
}

/// The numbers of drawn runs. `clap` has read them within their ranges, and here they are looked at once more.
fn numbers_of<'a>(matches: &ArgMatches<'a>, most: u64) -> Option<(u64, u64)>
    ensures within { IfSome result (λ numbers. (numbers.0 ≤ SEED_LIMIT) × (1 ≤ numbers.1) × (numbers.1 ≤ most)) }
    ensures some { (seed runs : ℕ) → AreNumbersOf (found_of matches.now) most seed runs → result ≡ Some (seed, runs) }
{
    within(
        number_given(matches, "seed"),
        number_given(matches, "runs"),
        most,
    )
}

/// Drawn runs, at most so many.
fn drawn_runs_of<'a>(matches: &ArgMatches<'a>, most: u64) -> Option<Drawn<'a>>
    ensures within { IfSome result (AreWithin most) }
    ensures some { (seed runs : ℕ) (by : Policy) → AreNumbersOf (found_of matches.now) most seed runs → IsPolicyOf (found_of matches.now) by
        → IfDrawn (first_value (found_of matches.now) (codes "from")) seed runs by result }
{
    match numbers_of(matches, most) {
        Some((seed, runs)) => Some(Drawn {
            seed,
            runs,
            by: policy_of(matches),
            from: matches.get_str("from"),
        }),
        None => None,
    }
}

/// Drawn runs whose journals are checked.
fn seeds_of<'a>(matches: &ArgMatches<'a>) -> Option<Subcommand<'a>>
    ensures within { ForSome result IsWithin }
    ensures name { IfSome result (λ command. name_of command ≡ codes "seeds") }
    ensures some { (seed runs : ℕ) (by : Policy) (format : Format) → AreNumbersOf (found_of matches.now) RUN_LIMIT seed runs → IsPolicyOf (found_of matches.now) by → IsFormatOf (found_of matches.now) format
        → DrawsRuns (first_value (found_of matches.now) (codes "from")) seed runs by format result }
{
    let format = format_of(matches);
    match drawn_runs_of(matches, RUN_LIMIT) {
        Some(drawn) => Some(Subcommand::Seeds(drawn, format)),
        None => None,
    }
}

/// What is written of the ends of runs.
fn form_of<'a>(matches: &ArgMatches<'a>) -> Form
    ensures all { one_text (found_of matches.now) (codes "all") ≡ Some (codes "true") → result.all ≡ true }
    ensures few { one_text (found_of matches.now) (codes "all") ≡ Some (codes "false") → result.all ≡ false }
    ensures trees { one_text (found_of matches.now) (codes "trees") ≡ Some (codes "true") → result.trees ≡ true }
    ensures lines { one_text (found_of matches.now) (codes "trees") ≡ Some (codes "false") → result.trees ≡ false }
    ensures json { one_text (found_of matches.now) (codes "json") ≡ Some (codes "true") → result.json ≡ true }
    ensures text { one_text (found_of matches.now) (codes "json") ≡ Some (codes "false") → result.json ≡ false }
    ensures form { (form : Form) → IsFormOf (found_of matches.now) form → result ≡ form }
{
    Form {
        all: matches.get_flag("all"),
        trees: matches.get_flag("trees"),
        json: matches.get_flag("json"),
    }
}

/// Drawn runs whose ends are counted, or that lines are added up.
fn outcomes_of<'a>(matches: &ArgMatches<'a>) -> Option<Subcommand<'a>>
    ensures within { ForSome result IsWithin }
    ensures name { IfSome result (λ command. name_of command ≡ codes "outcomes") }
    ensures added { (form : Form) → IsFlagOf (found_of matches.now) (codes "add") true → IsFormOf (found_of matches.now) form
        → result ≡ Some (Subcommand.AddedOutcomes form) }
    ensures some { (seed runs : ℕ) (by : Policy) (form : Form) → IsFlagOf (found_of matches.now) (codes "add") false → IsFormOf (found_of matches.now) form
        → AreNumbersOf (found_of matches.now) OUTCOME_LIMIT seed runs → IsPolicyOf (found_of matches.now) by
        → CountsEnds (first_value (found_of matches.now) (codes "from")) seed runs by form result }
{
    let form = form_of(matches);
    if flag_given(matches, "add") {
        return Some(Subcommand::AddedOutcomes(form));
    }
    match drawn_runs_of(matches, OUTCOME_LIMIT) {
        Some(drawn) => Some(Subcommand::Outcomes(drawn, form)),
        None => None,
    }
}

/// Adds what is asserted by one word.
fn push_texts<'a>(
    quantifier: Quantifier,
    texts: &[&'a str],
    asserted: &mut Vec<Asserted<'a>>,
) -> Result<(), AllocError>
    ensures { OnOk result (map said asserted.new.items ≡ map said asserted.old.items ++ map (λ text. (quantifier, text.now)) texts.now) }
{
    for text in texts {
        asserted.push(Asserted { quantifier, text })?;
    }
    Ok(())
}

/// The same by the option of that word, where it is given.
fn push_asserted<'a>(
    matches: &ArgMatches<'a>,
    quantifier: Quantifier,
    asserted: &mut Vec<Asserted<'a>>,
) -> Result<(), AllocError>
    ensures { OnOk result (map said asserted.new.items ≡ map said asserted.old.items ++ said_by (found_of matches.now) quantifier) }
{
    match matches.get_strs(quantifier.word()) {
        Some(texts) => push_texts(quantifier, texts, asserted),
        None => Ok(()),
    }
}

/// What is asserted of drawn runs.
fn asserted_of<'a>(alloc: Global, matches: &ArgMatches<'a>) -> Result<Vec<Asserted<'a>>, AllocError>
    ensures { IfOk result (λ asserted. map said asserted.items ≡ all_said (found_of matches.now)) }
{
    let mut asserted = Vec::new(alloc);
    push_asserted(matches, Quantifier::Never, &mut asserted)?;
    push_asserted(matches, Quantifier::Always, &mut asserted)?;
    push_asserted(matches, Quantifier::Sometimes, &mut asserted)?;
    Ok(asserted)
}

/// What is searched, in how many runs.
fn find_of<'a>(matches: &ArgMatches<'a>) -> Option<Subcommand<'a>>
    ensures within { ForSome result IsWithin }
    ensures name { IfSome result (λ command. name_of command ≡ codes "find") }
    ensures some { (text : List ℕ) (seed runs : ℕ) (by : Policy) (format : Format) → first_value (found_of matches.now) (codes "where") ≡ Some text
        → AreNumbersOf (found_of matches.now) SEARCH_LIMIT seed runs → IsPolicyOf (found_of matches.now) by → IsFormatOf (found_of matches.now) format
        → SearchesFor (first_value (found_of matches.now) (codes "from")) text seed runs by format result }
{
    let format = format_of(matches);
    let Some(what) = matches.get_str("where") else {
        return None;
    };
    match drawn_runs_of(matches, SEARCH_LIMIT) {
        Some(drawn) => Some(Subcommand::Find(what, drawn, format)),
        None => None,
    }
}

/// What is to be left of a script.
fn shrink_of<'a>(matches: &ArgMatches<'a>) -> Option<Subcommand<'a>>
    ensures within { ForSome result IsWithin }
    ensures name { IfSome result (λ command. name_of command ≡ codes "shrink") }
    ensures some { (text : List ℕ) → first_value (found_of matches.now) (codes "where") ≡ Some text
        → ShrinksFor (first_value (found_of matches.now) (codes "from")) text result }
{
    match matches.get_str("where") {
        Some(what) => Some(Subcommand::Shrink(what, matches.get_str("from"))),
        None => None,
    }
}

/// What is asked of trees.
fn asked_of<'a>(matches: &ArgMatches<'a>) -> Asked<'a>
    ensures at { (n : ℕ) → IsNumberOf (found_of matches.now) (codes "at") n → result ≡ Asked.At n }
    ensures before { (text : List ℕ) → one_text (found_of matches.now) (codes "at") ≡ None → first_value (found_of matches.now) (codes "before") ≡ Some text
        → AsksBefore text result }
    ensures who { (text : List ℕ) → one_text (found_of matches.now) (codes "at") ≡ None → first_value (found_of matches.now) (codes "before") ≡ None
        → first_value (found_of matches.now) (codes "who") ≡ Some text → AsksWho text result }
    ensures whole { one_text (found_of matches.now) (codes "at") ≡ None → first_value (found_of matches.now) (codes "before") ≡ None
        → first_value (found_of matches.now) (codes "who") ≡ None → result ≡ Asked.Whole }
{
    if let Some(commits) = number_given(matches, "at") {
        return Asked::At(commits);
    }
    if let Some(call) = matches.get_str("before") {
        return Asked::Before(call);
    }
    match matches.get_str("who") {
        Some(path) => Asked::Who(path),
        None => Asked::Whole,
    }
}

/// What is written of a run's events.
fn trace_of<'a>(matches: &ArgMatches<'a>) -> Subcommand<'a>
    ensures within { IsWithin result }
    ensures name { name_of result ≡ codes "trace" }
    ensures asked { (every : Bool) (format : Format) → IsFlagOf (found_of matches.now) (codes "every") every → IsFormatOf (found_of matches.now) format
        → TracesSo every format result }
{
    let every = flag_given(matches, "every");
    Subcommand::Trace(schedule_of(matches), every, format_of(matches))
}

/// What a picture shows, and how.
fn view_of<'a>(matches: &ArgMatches<'a>) -> View
    ensures { (view : View) → IsViewOf (found_of matches.now) view → result ≡ view }
{
    View {
        around: number_given(matches, "around"),
        width: number_given(matches, "width"),
        folds: flag_given(matches, "fold"),
    }
}

/// What is drawn.
fn drawing_of<'a>(matches: &ArgMatches<'a>) -> Drawing
    ensures page { IsFlagOf (found_of matches.now) (codes "html") true → result ≡ Drawing.Page }
    ensures picture { (view : View) → IsFlagOf (found_of matches.now) (codes "html") false → IsViewOf (found_of matches.now) view → result ≡ Drawing.Picture view }
{
    let view = view_of(matches);
    if flag_given(matches, "html") {
        Drawing::Page
    } else {
        Drawing::Picture(view)
    }
}

/// What is written of histories.
fn histories_of<'a>(matches: &ArgMatches<'a>) -> Histories
    ensures learn { one_text (found_of matches.now) (codes "learn") ≡ Some (codes "true") → result ≡ Histories.Learn }
    ensures many { one_text (found_of matches.now) (codes "learn") ≡ Some (codes "false") → one_text (found_of matches.now) (codes "many") ≡ Some (codes "true") → result ≡ Histories.Many }
    ensures front { one_text (found_of matches.now) (codes "learn") ≡ Some (codes "false") → one_text (found_of matches.now) (codes "many") ≡ Some (codes "false") → one_text (found_of matches.now) (codes "front") ≡ Some (codes "true") → result ≡ Histories.Front }
    ensures core { one_text (found_of matches.now) (codes "learn") ≡ Some (codes "false") → one_text (found_of matches.now) (codes "many") ≡ Some (codes "false") → one_text (found_of matches.now) (codes "front") ≡ Some (codes "false") → one_text (found_of matches.now) (codes "core") ≡ Some (codes "true") → result ≡ Histories.Core }
    ensures whole { one_text (found_of matches.now) (codes "learn") ≡ Some (codes "false") → one_text (found_of matches.now) (codes "many") ≡ Some (codes "false") → one_text (found_of matches.now) (codes "front") ≡ Some (codes "false") → one_text (found_of matches.now) (codes "core") ≡ Some (codes "false") → result ≡ Histories.Whole }
{
    if matches.get_flag("learn") {
        return Histories::Learn;
    }
    if matches.get_flag("many") {
        return Histories::Many;
    }
    if matches.get_flag("front") {
        return Histories::Front;
    }
    if matches.get_flag("core") {
        return Histories::Core;
    }
    Histories::Whole
}

/// What is drawn of a history.
fn drawn_of<'a>(matches: &ArgMatches<'a>) -> Option<Drawing>
    ensures page { one_text (found_of matches.now) (codes "html") ≡ Some (codes "true") → result ≡ Some Drawing.Page }
    ensures picture { one_text (found_of matches.now) (codes "html") ≡ Some (codes "false") → one_text (found_of matches.now) (codes "draw") ≡ Some (codes "true") → IsSomePicture result }
    ensures none { one_text (found_of matches.now) (codes "html") ≡ Some (codes "false") → one_text (found_of matches.now) (codes "draw") ≡ Some (codes "false") → result ≡ None }
{
    if matches.get_flag("html") {
        return Some(Drawing::Page);
    }
    if matches.get_flag("draw") {
        return Some(Drawing::Picture(View::of(None)));
    }
    None
}

/// How histories are read, where those are kept that are not lawful, and what is drawn of one.
fn recorded_of<'a>(matches: &ArgMatches<'a>) -> Recorded<'a>
    ensures dialect { option_map (λ word. word.now) result.dialect ≡ first_value (found_of matches.now) (codes "as") }
    ensures failing { option_map (λ word. word.now) result.failing ≡ first_value (found_of matches.now) (codes "failing") }
    ensures page { one_text (found_of matches.now) (codes "html") ≡ Some (codes "true") → result.drawn ≡ Some Drawing.Page }
{
    Recorded {
        dialect: matches.get_str("as"),
        failing: matches.get_str("failing"),
        drawn: drawn_of(matches),
    }
}

/// What is written of histories: those of which some are kept are read as many.
fn read_as(histories: Histories, failing: Option<&str>) -> Histories
    ensures many { is_some failing.entry ≡ true → result ≡ Histories.Many }
    ensures same { is_some failing.entry ≡ false → result ≡ histories }
{
    if failing.is_some() {
        Histories::Many
    } else {
        histories
    }
}

/// The limit of a search. `clap` has read it within its range, and here it is looked at once more.
fn limit_of<'a>(matches: &ArgMatches<'a>) -> Option<Subcommand<'a>>
    ensures within { ForSome result IsWithin }
    ensures name { IfSome result (λ command. name_of command ≡ codes "linearize") }
{
    let limit = match number_given(matches, "limit") {
        Some(limit) => limit,
        None => CONFIGURATIONS,
    };
    if limit < 1 || limit > CONFIGURATION_LIMIT {
        return None;
    }
    let recorded = recorded_of(matches);
    let histories = read_as(histories_of(matches), recorded.failing);
    Some(Subcommand::Linearize(histories, limit, recorded))
}

/// The topic that the argument with an identifier names, if it is given.
fn topic_given<'a>(matches: &ArgMatches<'a>, id: &str) -> Option<Topic>
    ensures { IfSome result (λ topic. first_value (found_of matches.now) id.now ≡ Some (word_of topic)) }
{
    topic_of(matches.get_str(id)?)
}

/// What is to be explained.
fn topics_of<'a>(matches: &ArgMatches<'a>) -> Option<Subcommand<'a>>
    ensures within { ForSome result IsWithin }
    ensures name { IfSome result (λ command. name_of command ≡ codes "explain") }
{
    let first = topic_given(matches, "kind")?;
    Some(Subcommand::Explain(first, topic_given(matches, "second")))
}

/// The subcommand of a name, by what was matched after it.
fn named<'a>(name: &str, given: &ArgMatches<'a>) -> Option<Subcommand<'a>>
    ensures within { ForSome result IsWithin }
    ensures name { IfSome result (λ command. name_of command ≡ name.now) }
{
    match name {
        "run" => Some(Subcommand::Run(schedule_of(given), given.get_str("from"))),
        "seeds" => seeds_of(given),
        "outcomes" => outcomes_of(given),
        "find" => find_of(given),
        "shrink" => shrink_of(given),
        "tree" => Some(Subcommand::Tree(schedule_of(given), asked_of(given))),
        "threads" => Some(Subcommand::Threads(given.get_flag("journal"))),
        "check" => Some(Subcommand::Check(format_of(given))),
        "linearize" => limit_of(given),
        "trace" => Some(trace_of(given)),
        "draw" => Some(Subcommand::Draw(schedule_of(given), drawing_of(given))),
        "schedule" => Some(Subcommand::Schedule(schedule_of(given))),
        "explain" => topics_of(given),
        _ => None,
    }
}

/// What the command line asks for, if it is a subcommand, and the file that it names.
pub(crate) fn invocation_of<'a>(
    alloc: Global,
    matches: &ArgMatches<'a>,
) -> Result<Option<Invocation<'a>>, AllocError>
    ensures within { IfOk result (λ asked. IfSome asked (λ asked. IsWithin asked.command)) }
    ensures name { IfOk result (λ asked. IfSome asked (λ asked. subcommand_name_of matches.now ≡ Some (name_of asked.command))) }
{
    let Some((name, given)) = matches.subcommand() else {
        return Ok(None);
    };
    let Some(command) = named(name, given) else {
        return Ok(None);
    };
    let asserted = asserted_of(alloc, given)?;
    Ok(Some(Invocation {
        command,
        file: given.get_str("file"),
        asserted,
        color: color_of(given),
    }))
}
