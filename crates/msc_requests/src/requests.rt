//! From words to a request, by clap.

ghost use Rattle.std.specs.Prelude.{◌≡◌, IfOk, IfNone, IfSome, IsErrOf, map, option_map, true, false};
ghost use Rattle.std.specs.List.{list_all};
ghost use Rattle.std.specs.Str.{is_utf8};
ghost use Rattle.clap.specs.Words.{app_of, found_of, is_simple, is_simple_and_free, rows_of};
ghost use Rattle.msc_requests.specs.Requests.{Answers, HasNoRequest, IsFound, budget_from, check_from, check_in, check_request, choices_from, choices_in, choices_request, command_request, form_of, is_true, judge_request, list_from, list_in, list_request, next_from, next_in, next_request, print_from, print_in, print_request, request_from, request_in, request_of as request_in_words, sample_from, sample_in, sample_request, seed_in, session_budget_from, sessions_from, sessions_in, sessions_request, turns_in};
ghost use Rattle.msc_requests.specs.declared.request.Request.TheVariants.{Choices, Judge, List, Next, Sessions};
ghost use Rattle.msc_requests.specs.declared.request.WordFault.TheVariants.{NoRequest};

use crate::commands::{
    check_command, choices_command, judge_command, list_command, next_command, print_command,
    sample_command, sessions_command,
};
use crate::numbers::number_in;
use crate::request::{
    MOST_SEED, MOST_TURNS, Request, SESSION_BUDGET_DEFAULT, SESSION_BUDGET_MOST, WordFault,
};
use clap::error::ErrorKind;
use clap::{ArgMatches, Command};
use event_log::LogForm;
use msc_base::{Limits, NoMemory, Text, Words, is_text};
use std::alloc::Global;

/// Whether an option without a value is given.
fn is_given(text: Option<&str>) -> bool
    ensures { result ≡ is_true (option_map (λ s. s.now) text.entry) }
{
    match text {
        None => false,
        Some(text) => text == "true",
    }
}

/// The form of the log that is asked for.
fn form_given(text: Option<&str>) -> LogForm
    ensures { result ≡ form_of (is_true (option_map (λ s. s.now) text.entry)) }
{
    if is_given(text) {
        LogForm::Json
    } else {
        LogForm::Lines
    }
}

/// How many digits a budget may have.
const BUDGET_DIGITS: usize = 7;

/// How many digits the numbers of a sample may have.
const SAMPLE_DIGITS: usize = 10;

/// The budget that is asked for, or the one that stands where none is.
fn budget_given(text: Option<&str>) -> Option<u64>
    ensures { result ≡ budget_from (option_map (λ s. s.now) text.entry) }
{
    match text {
        None => Some(Limits::BUDGET_DEFAULT),
        Some(text) => number_in(text, BUDGET_DIGITS, 1, Limits::BUDGET_MOST),
    }
}

/// The budget of a session that is asked for, or the one that stands where none is.
fn session_budget_given(text: Option<&str>) -> Option<u64>
    ensures { result ≡ session_budget_from (option_map (λ s. s.now) text.entry) }
{
    match text {
        None => Some(SESSION_BUDGET_DEFAULT),
        Some(text) => number_in(text, BUDGET_DIGITS, 1, SESSION_BUDGET_MOST),
    }
}

/// The request to judge, with texts of its own.
fn judge_of(
    alloc: Global,
    document: &str,
    chart: &str,
    log: &str,
    budget: u64,
    json: bool,
    form: LogForm,
) -> Result<Request, NoMemory>
    ensures { IfOk result (λ r. r ≡ Judge document.now chart.now log.now budget json form) }
{
    let document = Text::from_bytes(alloc, document.as_bytes())?;
    let chart = Text::from_bytes(alloc, chart.as_bytes())?;
    let log = Text::from_bytes(alloc, log.as_bytes())?;
    Ok(Request::Judge {
        document,
        chart,
        log,
        budget,
        json,
        form,
    })
}

/// The request to judge, from what each argument was given.
fn request_of_texts(
    alloc: Global,
    document: Option<&str>,
    chart: Option<&str>,
    log: Option<&str>,
    budget: Option<&str>,
    json: Option<&str>,
    log_json: Option<&str>,
) -> Result<Request, WordFault>
    ensures { Answers (request_from (option_map (λ s. s.now) document.entry) (option_map (λ s. s.now) chart.entry) (option_map (λ s. s.now) log.entry)
        (option_map (λ s. s.now) budget.entry) (option_map (λ s. s.now) json.entry) (option_map (λ s. s.now) log_json.entry)) result }
{
    let Some(document) = document else {
        return Err(WordFault::NoRequest);
    };
    let Some(chart) = chart else {
        return Err(WordFault::NoRequest);
    };
    let Some(log) = log else {
        return Err(WordFault::NoRequest);
    };
    let Some(budget) = budget_given(budget) else {
        return Err(WordFault::NoRequest);
    };
    let json = is_given(json);
    let form = form_given(log_json);
    match judge_of(alloc, document, chart, log, budget, json, form) {
        Ok(request) => Ok(request),
        Err(_) => Err(WordFault::NoMemory),
    }
}

/// The request for the next labels, with texts of its own.
fn next_of(
    alloc: Global,
    document: &str,
    chart: &str,
    log: &str,
    budget: u64,
) -> Result<Request, NoMemory>
    ensures { IfOk result (λ r. r ≡ Next document.now chart.now log.now budget) }
{
    let document = Text::from_bytes(alloc, document.as_bytes())?;
    let chart = Text::from_bytes(alloc, chart.as_bytes())?;
    let log = Text::from_bytes(alloc, log.as_bytes())?;
    Ok(Request::Next {
        document,
        chart,
        log,
        budget,
    })
}

/// The request for the next labels, from what each argument was given.
fn next_of_texts(
    alloc: Global,
    document: Option<&str>,
    chart: Option<&str>,
    log: Option<&str>,
    budget: Option<&str>,
) -> Result<Request, WordFault>
    ensures { Answers (next_from (option_map (λ s. s.now) document.entry) (option_map (λ s. s.now) chart.entry) (option_map (λ s. s.now) log.entry)
        (option_map (λ s. s.now) budget.entry)) result }
{
    let Some(document) = document else {
        return Err(WordFault::NoRequest);
    };
    let Some(chart) = chart else {
        return Err(WordFault::NoRequest);
    };
    let Some(log) = log else {
        return Err(WordFault::NoRequest);
    };
    let Some(budget) = budget_given(budget) else {
        return Err(WordFault::NoRequest);
    };
    match next_of(alloc, document, chart, log, budget) {
        Ok(request) => Ok(request),
        Err(_) => Err(WordFault::NoMemory),
    }
}

/// The request to judge sessions, with texts of its own.
fn sessions_of(
    alloc: Global,
    document: &str,
    chart: &str,
    log: &str,
    budget: u64,
    form: LogForm,
) -> Result<Request, NoMemory>
    ensures { IfOk result (λ r. r ≡ Sessions document.now chart.now log.now budget form) }
{
    let document = Text::from_bytes(alloc, document.as_bytes())?;
    let chart = Text::from_bytes(alloc, chart.as_bytes())?;
    let log = Text::from_bytes(alloc, log.as_bytes())?;
    Ok(Request::Sessions {
        document,
        chart,
        log,
        budget,
        form,
    })
}

/// The request to judge sessions, from what each argument was given.
fn sessions_of_texts(
    alloc: Global,
    document: Option<&str>,
    chart: Option<&str>,
    log: Option<&str>,
    budget: Option<&str>,
    log_json: Option<&str>,
) -> Result<Request, WordFault>
    ensures { Answers (sessions_from (option_map (λ s. s.now) document.entry) (option_map (λ s. s.now) chart.entry) (option_map (λ s. s.now) log.entry)
        (option_map (λ s. s.now) budget.entry) (option_map (λ s. s.now) log_json.entry)) result }
{
    let Some(document) = document else {
        return Err(WordFault::NoRequest);
    };
    let Some(chart) = chart else {
        return Err(WordFault::NoRequest);
    };
    let Some(log) = log else {
        return Err(WordFault::NoRequest);
    };
    let Some(budget) = session_budget_given(budget) else {
        return Err(WordFault::NoRequest);
    };
    let form = form_given(log_json);
    match sessions_of(alloc, document, chart, log, budget, form) {
        Ok(request) => Ok(request),
        Err(_) => Err(WordFault::NoMemory),
    }
}

/// The request to list choices, with texts of its own.
fn choices_of(alloc: Global, document: &str, chart: &str) -> Result<Request, NoMemory>
    ensures { IfOk result (λ r. r ≡ Choices document.now chart.now) }
{
    let document = Text::from_bytes(alloc, document.as_bytes())?;
    let chart = Text::from_bytes(alloc, chart.as_bytes())?;
    Ok(Request::Choices { document, chart })
}

/// The request to list choices, from what each argument was given.
fn choices_of_texts(
    alloc: Global,
    document: Option<&str>,
    chart: Option<&str>,
) -> Result<Request, WordFault>
    ensures { Answers (choices_from (option_map (λ s. s.now) document.entry) (option_map (λ s. s.now) chart.entry)) result }
{
    let Some(document) = document else {
        return Err(WordFault::NoRequest);
    };
    let Some(chart) = chart else {
        return Err(WordFault::NoRequest);
    };
    match choices_of(alloc, document, chart) {
        Ok(request) => Ok(request),
        Err(_) => Err(WordFault::NoMemory),
    }
}

/// The request to check, from what each argument was given.
fn check_of_texts(
    alloc: Global,
    document: Option<&str>,
    json: Option<&str>,
) -> Result<Request, WordFault>
    ensures { Answers (check_from (option_map (λ s. s.now) document.entry) (option_map (λ s. s.now) json.entry)) result }
{
    let Some(document) = document else {
        return Err(WordFault::NoRequest);
    };
    match Text::from_bytes(alloc, document.as_bytes()) {
        Ok(document) => Ok(Request::Check {
            document,
            json: is_given(json),
        }),
        Err(_) => Err(WordFault::NoMemory),
    }
}

/// A text of its own of what an argument was given, where it was given something.
fn own_text(alloc: Global, text: Option<&str>) -> Result<Option<Text>, NoMemory>
    ensures { IfOk result (λ own. own ≡ option_map (λ s. s.now) text.entry) }
{
    match text {
        Some(text) => Ok(Some(Text::from_bytes(alloc, text.as_bytes())?)),
        None => Ok(None),
    }
}

/// The request to list, with texts of its own.
fn list_of(
    alloc: Global,
    document: &str,
    chart: Option<&str>,
    json: bool,
) -> Result<Request, NoMemory>
    ensures { IfOk result (λ r. r ≡ List document.now (option_map (λ s. s.now) chart.entry) json) }
{
    let document = Text::from_bytes(alloc, document.as_bytes())?;
    let chart = own_text(alloc, chart)?;
    Ok(Request::List {
        document,
        chart,
        json,
    })
}

/// The request to list, from what each argument was given.
fn list_of_texts(
    alloc: Global,
    document: Option<&str>,
    chart: Option<&str>,
    json: Option<&str>,
) -> Result<Request, WordFault>
    ensures { Answers (list_from (option_map (λ s. s.now) document.entry) (option_map (λ s. s.now) chart.entry) (option_map (λ s. s.now) json.entry)) result }
{
    let Some(document) = document else {
        return Err(WordFault::NoRequest);
    };
    match list_of(alloc, document, chart, is_given(json)) {
        Ok(request) => Ok(request),
        Err(_) => Err(WordFault::NoMemory),
    }
}

/// The request to print, from what its argument was given.
fn print_of_text(alloc: Global, document: Option<&str>) -> Result<Request, WordFault>
    ensures { Answers (print_from (option_map (λ s. s.now) document.entry)) result }
{
    let Some(document) = document else {
        return Err(WordFault::NoRequest);
    };
    match Text::from_bytes(alloc, document.as_bytes()) {
        Ok(document) => Ok(Request::Print { document }),
        Err(_) => Err(WordFault::NoMemory),
    }
}

/// The request for a sample, from what each argument was given.
fn sample_of_texts(turns: Option<&str>, seed: Option<&str>) -> Result<Request, WordFault>
    ensures { Answers (sample_from (option_map (λ s. s.now) turns.entry) (option_map (λ s. s.now) seed.entry)) result }
{
    let Some(turns) = turns else {
        return Err(WordFault::NoRequest);
    };
    let Some(seed) = seed else {
        return Err(WordFault::NoRequest);
    };
    let Some(turns) = number_in(turns, SAMPLE_DIGITS, 1, MOST_TURNS) else {
        return Err(WordFault::NoRequest);
    };
    let Some(seed) = number_in(seed, SAMPLE_DIGITS, 0, MOST_SEED) else {
        return Err(WordFault::NoRequest);
    };
    Ok(Request::Sample { turns, seed })
}

/// The request to judge in what `clap` found.
fn request_of_matches(alloc: Global, matches: &ArgMatches) -> Result<Request, WordFault>
    ensures { Answers (request_in (rows_of (found_of matches.now))) result }
{
    request_of_texts(
        alloc,
        matches.get_str("document"),
        matches.get_str("chart"),
        matches.get_str("log"),
        matches.get_str("budget"),
        matches.get_str("json"),
        matches.get_str("log-json"),
    )
}

/// The request for the next labels in what `clap` found.
fn next_of_matches(alloc: Global, matches: &ArgMatches) -> Result<Request, WordFault>
    ensures { Answers (next_in (rows_of (found_of matches.now))) result }
{
    next_of_texts(
        alloc,
        matches.get_str("document"),
        matches.get_str("chart"),
        matches.get_str("log"),
        matches.get_str("budget"),
    )
}

/// The request to judge sessions in what `clap` found.
fn sessions_of_matches(alloc: Global, matches: &ArgMatches) -> Result<Request, WordFault>
    ensures { Answers (sessions_in (rows_of (found_of matches.now))) result }
{
    sessions_of_texts(
        alloc,
        matches.get_str("document"),
        matches.get_str("chart"),
        matches.get_str("log"),
        matches.get_str("budget"),
        matches.get_str("log-json"),
    )
}

/// The request to list choices in what `clap` found.
fn choices_of_matches(alloc: Global, matches: &ArgMatches) -> Result<Request, WordFault>
    ensures { Answers (choices_in (rows_of (found_of matches.now))) result }
{
    choices_of_texts(alloc, matches.get_str("document"), matches.get_str("chart"))
}

/// The request to check in what `clap` found.
fn check_of_matches(alloc: Global, matches: &ArgMatches) -> Result<Request, WordFault>
    ensures { Answers (check_in (rows_of (found_of matches.now))) result }
{
    check_of_texts(alloc, matches.get_str("document"), matches.get_str("json"))
}

/// The request to list in what `clap` found.
fn list_of_matches(alloc: Global, matches: &ArgMatches) -> Result<Request, WordFault>
    ensures { Answers (list_in (rows_of (found_of matches.now))) result }
{
    list_of_texts(
        alloc,
        matches.get_str("document"),
        matches.get_str("chart"),
        matches.get_str("json"),
    )
}

/// The request to print in what `clap` found.
fn print_of_matches(alloc: Global, matches: &ArgMatches) -> Result<Request, WordFault>
    ensures { Answers (print_in (rows_of (found_of matches.now))) result }
{
    print_of_text(alloc, matches.get_str("document"))
}

/// The request for a sample in what `clap` found.
fn sample_of_matches(matches: &ArgMatches) -> Result<Request, WordFault>
    ensures { Answers (sample_in (rows_of (found_of matches.now))) result }
{
    sample_of_texts(matches.get_str("turns"), matches.get_str("seed"))
}

/// What `clap` finds in the words behind a command.
fn matches_in<'a>(command: Command<'a>, words: &'a [&str]) -> Result<ArgMatches<'a>, WordFault>
    requires simple { is_simple (app_of command) ≡ true }
    requires free { is_simple_and_free (app_of command) ≡ true }
    ensures found { IfOk result (λ m. IsFound (app_of command.entry) (map (λ w. w.now) words.entry.now) (rows_of (found_of m))) }
    ensures none { IsErrOf result NoRequest → HasNoRequest (app_of command.entry) (map (λ w. w.now) words.entry.now) }
{
    match command.try_get_matches_from(words) {
        Ok(matches) => Ok(matches),
        Err(error) => match error.kind() {
            ErrorKind::OutOfMemory => Err(WordFault::NoMemory),
            _ => Err(WordFault::NoRequest),
        },
    }
}

/// The request that the words behind `judge` make.
fn judge_words(alloc: Global, words: &[&str]) -> Result<Request, WordFault>
    ensures { Answers (judge_request (map (λ w. w.now) words.entry.now)) result }
{
    let Ok(command) = judge_command(alloc) else {
        return Err(WordFault::NoMemory);
    };
    let matches = matches_in(command, words)?;
    request_of_matches(alloc, &matches)
}

/// The request that the words behind `next` make.
fn next_words(alloc: Global, words: &[&str]) -> Result<Request, WordFault>
    ensures { Answers (next_request (map (λ w. w.now) words.entry.now)) result }
{
    let Ok(command) = next_command(alloc) else {
        return Err(WordFault::NoMemory);
    };
    let matches = matches_in(command, words)?;
    next_of_matches(alloc, &matches)
}

/// The request that the words behind `sessions` make.
fn sessions_words(alloc: Global, words: &[&str]) -> Result<Request, WordFault>
    ensures { Answers (sessions_request (map (λ w. w.now) words.entry.now)) result }
{
    let Ok(command) = sessions_command(alloc) else {
        return Err(WordFault::NoMemory);
    };
    let matches = matches_in(command, words)?;
    sessions_of_matches(alloc, &matches)
}

/// The request that the words behind `choices` make.
fn choices_words(alloc: Global, words: &[&str]) -> Result<Request, WordFault>
    ensures { Answers (choices_request (map (λ w. w.now) words.entry.now)) result }
{
    let Ok(command) = choices_command(alloc) else {
        return Err(WordFault::NoMemory);
    };
    let matches = matches_in(command, words)?;
    choices_of_matches(alloc, &matches)
}

/// The request that the words behind `check` make.
fn check_words(alloc: Global, words: &[&str]) -> Result<Request, WordFault>
    ensures { Answers (check_request (map (λ w. w.now) words.entry.now)) result }
{
    let Ok(command) = check_command(alloc) else {
        return Err(WordFault::NoMemory);
    };
    let matches = matches_in(command, words)?;
    check_of_matches(alloc, &matches)
}

/// The request that the words behind `list` make.
fn list_words(alloc: Global, words: &[&str]) -> Result<Request, WordFault>
    ensures { Answers (list_request (map (λ w. w.now) words.entry.now)) result }
{
    let Ok(command) = list_command(alloc) else {
        return Err(WordFault::NoMemory);
    };
    let matches = matches_in(command, words)?;
    list_of_matches(alloc, &matches)
}

/// The request that the words behind `print` make.
fn print_words(alloc: Global, words: &[&str]) -> Result<Request, WordFault>
    ensures { Answers (print_request (map (λ w. w.now) words.entry.now)) result }
{
    let Ok(command) = print_command(alloc) else {
        return Err(WordFault::NoMemory);
    };
    let matches = matches_in(command, words)?;
    print_of_matches(alloc, &matches)
}

/// The request that the words behind `sample` make.
fn sample_words(alloc: Global, words: &[&str]) -> Result<Request, WordFault>
    ensures { Answers (sample_request (map (λ w. w.now) words.entry.now)) result }
{
    let Ok(command) = sample_command(alloc) else {
        return Err(WordFault::NoMemory);
    };
    let matches = matches_in(command, words)?;
    sample_of_matches(&matches)
}

/// The request that the words behind this command make.
fn command_words(alloc: Global, command: &Text, words: &[&str]) -> Result<Request, WordFault>
    ensures { Answers (command_request command.now (map (λ w. w.now) words.entry.now)) result }
{
    if is_text(command.bytes(), "judge") {
        return judge_words(alloc, words);
    }
    if is_text(command.bytes(), "check") {
        return check_words(alloc, words);
    }
    if is_text(command.bytes(), "list") {
        return list_words(alloc, words);
    }
    if is_text(command.bytes(), "print") {
        return print_words(alloc, words);
    }
    if is_text(command.bytes(), "sample") {
        return sample_words(alloc, words);
    }
    if is_text(command.bytes(), "next") {
        return next_words(alloc, words);
    }
    if is_text(command.bytes(), "sessions") {
        return sessions_words(alloc, words);
    }
    if is_text(command.bytes(), "choices") {
        return choices_words(alloc, words);
    }
    Err(WordFault::NoRequest)
}

#[tactic(auto, using(crate::proofs::WordLaws::not_utf8))]
/// The word as a text, if it is one.
fn text_of(word: &Text) -> Option<&str>
    ensures text { IfSome result (λ t. (t.now ≡ word.now) × (is_utf8 word.now ≡ true)) }
    ensures other { IfNone result (is_utf8 word.now ≡ false) }
{
    match str::from_utf8(word.bytes()) {
        Ok(text) => Some(text),
        Err(_) => None,
    }
}

#[tactic(auto, using(crate::proofs::WordLaws::more_texts, crate::proofs::WordLaws::more_utf8, crate::proofs::WordLaws::first_other, crate::proofs::WordLaws::all_texts, crate::proofs::WordLaws::all_utf8))]
/// The words as texts, if each is one.
fn texts_of(alloc: Global, words: &[Text]) -> Result<Vec<&str>, WordFault>
    ensures texts { IfOk result (λ v. map (λ w. w.now) v.items ≡ words.now) }
    ensures utf8 { IfOk result (λ v. list_all is_utf8 words.now ≡ true) }
    ensures other { IsErrOf result NoRequest → list_all is_utf8 words.now ≡ false }
{
    let mut texts = Vec::new(alloc);
    let mut rest = words;
    while let Some((word, others)) = rest.split_first() {
        let Some(text) = text_of(word) else {
            return Err(WordFault::NoRequest);
        };
        if texts.push(text).is_err() {
            return Err(WordFault::NoMemory);
        }
        rest = others;
    }
    Ok(texts)
}

/// The request that the words make.
pub fn request_of(alloc: Global, words: &Words) -> Result<Request, WordFault>
    ensures { Answers (request_in_words words.now) result }
{
    let Some((command, rest)) = words.as_slice().split_first() else {
        return Err(WordFault::NoRequest);
    };
    let texts = texts_of(alloc, rest)?;
    command_words(alloc, command, texts.as_slice())
}
