//! The arguments of a command line, one after another: files, and options with their values.
//!
//! `file` and `value` give what stands in one argument alone, `count` how many there are; each walks
//! the words once. What an argument is stands in `specs/Arguments.antt`. Takes no memory.

ghost use Rattle.std.specs.Prelude.{◌≡◌, ◌<◌, ◌≤◌, ◌+◌, Some, None, MatchOption, IfSome, length, map, string_bytes, option_copied};
ghost use Rattle.rd_words.specs.Arguments.{is_plain};
ghost use Rattle.rd_words.specs.Shown.{shown};
ghost use Rattle.std.specs.Option.{option_map};
ghost use Rattle.rd_words.specs.Read.{FileGoesOn, ValueGoesOn, arguments_of, count_behind, file_of, has_dashes, next_of, next_option, valued, value_of};

/// An argument. An option has its two dashes.
#[derive(Clone, Copy)]
enum Part<'a> {
    File(&'a str),
    Given(&'a str, &'a str),
}

/// An argument, and the words behind it.
#[derive(Clone, Copy)]
struct Next<'a> {
    part: Part<'a>,
    rest: &'a [String],
}

/// Whether a word may stand where FILE or a value is due.
fn plain(word: &[u8]) -> bool
    ensures { result ≡ is_plain word.now }
{
    match word {
        [b'-', _, ..] => false,
        _ => true,
    }
}

/// Whether a word begins as an option does.
fn dashed(word: &[u8]) -> bool
    ensures { result ≡ has_dashes word.now }
{
    match word {
        [b'-', b'-', ..] => true,
        _ => false,
    }
}

/// The option of a word, with the next word as its value.
fn with_next<'a>(word: &'a str, words: &'a [String]) -> Option<Next<'a>>
    ensures next { let others = map string_bytes words.now in
        MatchOption result (valued word.now others ≡ None)
        (λ n. valued word.now others ≡
        Some (record { argument = shown n.part; rest = map string_bytes n.rest.now })) }
    ensures shorter { IfSome result (λ n. length n.rest.now ≤ length words.now) }
{
    match words {
        [value, rest @ ..] if plain(value.as_bytes()) => Some(Next {
            part: Part::Given(word, value.as_str()),
            rest,
        }),
        _ => None,
    }
}

/// The option of a word, with its value in it or behind it.
fn first_option<'a>(word: &'a str, words: &'a [String]) -> Option<Next<'a>>
    ensures next { let others = map string_bytes words.now in
        MatchOption result (next_option word.now others ≡ None)
        (λ n. next_option word.now others ≡
        Some (record { argument = shown n.part; rest = map string_bytes n.rest.now })) }
    ensures shorter { IfSome result (λ n. length n.rest.now ≤ length words.now) }
{
    if !dashed(word.as_bytes()) {
        return None;
    }
    match word.split_once('=') {
        Some((option, value)) => Some(Next {
            part: Part::Given(option, value),
            rest: words,
        }),
        None => with_next(word, words),
    }
}

/// The first argument, or none where the first word begins none.
fn first<'a>(words: &'a [String]) -> Option<Next<'a>>
    ensures next { let all = map string_bytes words.now in
        MatchOption result (next_of all ≡ None)
        (λ n. next_of all ≡
        Some (record { argument = shown n.part; rest = map string_bytes n.rest.now })) }
    ensures shorter { IfSome result (λ n. length n.rest.now < length words.now) }
{
    match words {
        [word, rest @ ..] if plain(word.as_bytes()) => Some(Next {
            part: Part::File(word.as_str()),
            rest,
        }),
        [word, rest @ ..] => first_option(word.as_str(), rest),
        [] => None,
    }
}

/// The file so far, after one more argument; none where that is a second file.
fn with_file<'a>(found: Option<&'a str>, part: Part<'a>) -> Option<Option<&'a str>>
    ensures { FileGoesOn (option_copied found.entry) (shown part.entry)
        (option_map option_copied result) }
{
    match (found, part) {
        (_, Part::Given(_, _)) => Some(found),
        (None, Part::File(name)) => Some(Some(name)),
        (Some(_), Part::File(_)) => None,
    }
}

/// The file, where there is one alone.
pub fn file<'a>(words: &'a [String]) -> Option<&'a str>
    ensures { option_copied result ≡ file_of (map string_bytes words.now) }
{
    let mut found = None;
    let mut rest = words;
    while !rest.is_empty() {
        let next = match first(rest) {
            Some(next) => next,
            None => return None,
        };
        found = match with_file(found, next.part) {
            Some(found) => found,
            None => return None,
        };
        rest = next.rest;
    }
    found
}

/// The value so far, after one more argument; none where that gives the option a second one.
fn with_value<'a>(found: Option<&'a str>, part: Part<'a>, option: &str) -> Option<Option<&'a str>>
    ensures { ValueGoesOn option.now (option_copied found.entry) (shown part.entry)
        (option_map option_copied result) }
{
    match part {
        Part::Given(other, value) if other == option => match found {
            None => Some(Some(value)),
            Some(_) => None,
        },
        _ => Some(found),
    }
}

/// The value of an option, where it is given one alone.
pub fn value<'a>(words: &'a [String], option: &str) -> Option<&'a str>
    ensures { option_copied result ≡ value_of option.now (map string_bytes words.now) }
{
    let mut found = None;
    let mut rest = words;
    while !rest.is_empty() {
        let next = match first(rest) {
            Some(next) => next,
            None => return None,
        };
        found = match with_value(found, next.part, option) {
            Some(found) => found,
            None => return None,
        };
        rest = next.rest;
    }
    found
}

/// How many arguments there are.
pub fn count(words: &[String]) -> Option<usize>
    ensures { result ≡ count_behind 0 (arguments_of (map string_bytes words.now)) }
{
    let mut count = 0;
    let mut rest = words;
    while !rest.is_empty() {
        let next = match first(rest) {
            Some(next) => next,
            None => return None,
        };
        count += 1;
        rest = next.rest;
    }
    Some(count)
}
