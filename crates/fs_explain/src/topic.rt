//! What `atomfs explain` is asked about.

ghost use Rattle.std.specs.Prelude.{◌≡◌, ◌≢◌, MatchOption};
ghost use Rattle.std.specs.Str.{IsUtf8};
ghost use Rattle.fs_explain.specs.Topics.{word_of};
ghost use Rattle.fs_explain.specs.declared.topic.Topic.{Topic};

use fs_names::PathFault;
use fs_text::FaultKind as TextFault;
use fs_timeline::FaultKind as EntryFault;

/// A word of what is found of a history that no journal has.
#[derive(Clone, Copy, Debug, PartialEq, Eq)]
pub enum HistoryWord {
    /// A call returns that has not begun.
    ReturnUnbegun,
    /// No journal explains the history.
    NoOrder,
    /// The limit was reached.
    Unknown,
}

/// A fault that can be explained.
#[derive(Clone, Copy, Debug, PartialEq, Eq)]
pub enum Topic {
    /// The fault of a text. That of a path goes by its own word.
    Text(TextFault),
    /// A fault of a path, whichever it is.
    Path,
    /// What is wrong with an entry of a journal.
    Entry(EntryFault),
    /// What is found of a history.
    History(HistoryWord),
}

/// The words of all topics, each of which names one.
pub const WORDS: [&str; 29] = [
    "BadHeader",
    "BadLine",
    "BadThread",
    "ThreadTwice",
    "BadPath",
    "NotAbsolute",
    "Nul",
    "NameTooLong",
    "TooManyNames",
    "Dot",
    "TrailingSlash",
    "BadNumber",
    "BadHex",
    "NoSchedule",
    "BadWord",
    "TooLarge",
    "OutOfMemory",
    "BadReply",
    "BadStart",
    "BeginTwice",
    "SeatBusy",
    "CommitUnbegun",
    "CommitTwice",
    "ReturnUncommitted",
    "ReturnTwice",
    "WrongReply",
    "ReturnUnbegun",
    "none",
    "unknown",
];

/// The topic that a word names; `None` where it names none.
pub fn topic_of(word: &str) -> Option<Topic>
    ensures { MatchOption result ((topic : Topic) → word_of topic ≢ word.now) (λ topic. word_of topic ≡ word.now) }
{
    let topic = match word {
        "BadHeader" => Topic::Text(TextFault::BadHeader),
        "BadLine" => Topic::Text(TextFault::BadLine),
        "BadThread" => Topic::Text(TextFault::BadThread),
        "ThreadTwice" => Topic::Text(TextFault::ThreadTwice),
        "BadPath" => Topic::Path,
        "NotAbsolute" => Topic::Text(TextFault::BadPath(PathFault::NotAbsolute)),
        "Nul" => Topic::Text(TextFault::BadPath(PathFault::Nul)),
        "NameTooLong" => Topic::Text(TextFault::BadPath(PathFault::NameTooLong)),
        "TooManyNames" => Topic::Text(TextFault::BadPath(PathFault::TooManyNames)),
        "Dot" => Topic::Text(TextFault::BadPath(PathFault::Dot)),
        "TrailingSlash" => Topic::Text(TextFault::BadPath(PathFault::TrailingSlash)),
        "BadNumber" => Topic::Text(TextFault::BadNumber),
        "BadHex" => Topic::Text(TextFault::BadHex),
        "NoSchedule" => Topic::Text(TextFault::NoSchedule),
        "BadWord" => Topic::Text(TextFault::BadWord),
        "TooLarge" => Topic::Text(TextFault::TooLarge),
        "OutOfMemory" => Topic::Text(TextFault::OutOfMemory),
        "BadReply" => Topic::Text(TextFault::BadReply),
        "BadStart" => Topic::Text(TextFault::BadStart),
        "BeginTwice" => Topic::Entry(EntryFault::BeginTwice),
        "SeatBusy" => Topic::Entry(EntryFault::SeatBusy),
        "CommitUnbegun" => Topic::Entry(EntryFault::CommitUnbegun),
        "CommitTwice" => Topic::Entry(EntryFault::CommitTwice),
        "ReturnUncommitted" => Topic::Entry(EntryFault::ReturnUncommitted),
        "ReturnTwice" => Topic::Entry(EntryFault::ReturnTwice),
        "WrongReply" => Topic::Entry(EntryFault::WrongReply),
        "ReturnUnbegun" => Topic::History(HistoryWord::ReturnUnbegun),
        "none" => Topic::History(HistoryWord::NoOrder),
        "unknown" => Topic::History(HistoryWord::Unknown),
        _ => return None,
    };
    Some(topic)
}

/// The topic that bytes name; `None` where they name none, or are no UTF-8.
pub fn topic_in(bytes: &[u8]) -> Option<Topic>
    ensures { MatchOption result (IsUtf8 bytes.now → (topic : Topic) → word_of topic ≢ bytes.now) (λ topic. word_of topic ≡ bytes.now) }
{
    match std::str::from_utf8(bytes) {
        Ok(word) => topic_of(word),
        Err(_) => None,
    }
}
