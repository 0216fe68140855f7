//! The text of a code.

ghost use Rattle.std.specs.Prelude.{◌≡◌, find, map, option_map};
ghost use Rattle.std.specs.Str.{bytes_eq};
ghost use Rattle.zexplain.specs.Texts.{explanation_of, with_capital, of_certificates, of_play, of_stories, text_among, debugging_text, loading_text, decoding_text, decoded_text, listing_text, reading_text, fitting_text, finding_text, rule_text, fault_text, saving_text, unpacking_text, playing_text, keeping_text};

use crate::certificates::{FINDING, FITTING, READING};
use crate::debugging::DEBUGGING;
use crate::faults::FAULTS;
use crate::playing::{KEEPING, PLAYING, SAVING, UNPACKING};
use crate::rules::RULES;
use crate::stories::{DECODING, LISTING, LOADING, TEXTS};

/// What a code means, the rule with the section of the standard, and what can be done, each on lines of its own; `None` where there is
/// no such code. Its letter may be small, as in `i5`.
pub fn explanation(code: &str) -> Option<&'static str>
    ensures text { option_map (λ text. text.now) result ≡ explanation_of code.now }
{
    of_stories(code)
        .or(of_certificates(code))
        .or(of_play(code))
        .or(debugging(code))
}

fn of_stories(code: &str) -> Option<&'static str>
    ensures { option_map (λ text. text.now) result ≡ of_stories (with_capital code.now) }
{
    loading(code)
        .or(decoding(code))
        .or(decoded(code))
        .or(listing(code))
}

fn of_certificates(code: &str) -> Option<&'static str>
    ensures { option_map (λ text. text.now) result ≡ of_certificates (with_capital code.now) }
{
    reading(code)
        .or(fitting(code))
        .or(finding(code))
        .or(rule(code))
}

fn of_play(code: &str) -> Option<&'static str>
    ensures { option_map (λ text. text.now) result ≡ of_play (with_capital code.now) }
{
    fault(code)
        .or(saving(code))
        .or(unpacking(code))
        .or(playing(code))
        .or(keeping(code))
}

fn loading(code: &str) -> Option<&'static str>
    ensures { option_map (λ text. text.now) result ≡ loading_text (with_capital code.now) }
{
    text_among(&LOADING, code)
}

fn decoding(code: &str) -> Option<&'static str>
    ensures { option_map (λ text. text.now) result ≡ decoding_text (with_capital code.now) }
{
    text_among(&DECODING, code)
}

fn decoded(code: &str) -> Option<&'static str>
    ensures { option_map (λ text. text.now) result ≡ decoded_text (with_capital code.now) }
{
    text_among(&TEXTS, code)
}

fn listing(code: &str) -> Option<&'static str>
    ensures { option_map (λ text. text.now) result ≡ listing_text (with_capital code.now) }
{
    text_among(&LISTING, code)
}

fn reading(code: &str) -> Option<&'static str>
    ensures { option_map (λ text. text.now) result ≡ reading_text (with_capital code.now) }
{
    text_among(&READING, code)
}

fn fitting(code: &str) -> Option<&'static str>
    ensures { option_map (λ text. text.now) result ≡ fitting_text (with_capital code.now) }
{
    text_among(&FITTING, code)
}

fn finding(code: &str) -> Option<&'static str>
    ensures { option_map (λ text. text.now) result ≡ finding_text (with_capital code.now) }
{
    text_among(&FINDING, code)
}

fn rule(code: &str) -> Option<&'static str>
    ensures { option_map (λ text. text.now) result ≡ rule_text (with_capital code.now) }
{
    text_among(&RULES, code)
}

fn fault(code: &str) -> Option<&'static str>
    ensures { option_map (λ text. text.now) result ≡ fault_text (with_capital code.now) }
{
    text_among(&FAULTS, code)
}

fn saving(code: &str) -> Option<&'static str>
    ensures { option_map (λ text. text.now) result ≡ saving_text (with_capital code.now) }
{
    text_among(&SAVING, code)
}

fn unpacking(code: &str) -> Option<&'static str>
    ensures { option_map (λ text. text.now) result ≡ unpacking_text (with_capital code.now) }
{
    text_among(&UNPACKING, code)
}

fn playing(code: &str) -> Option<&'static str>
    ensures { option_map (λ text. text.now) result ≡ playing_text (with_capital code.now) }
{
    text_among(&PLAYING, code)
}

fn keeping(code: &str) -> Option<&'static str>
    ensures { option_map (λ text. text.now) result ≡ keeping_text (with_capital code.now) }
{
    text_among(&KEEPING, code)
}

fn debugging(code: &str) -> Option<&'static str>
    ensures { option_map (λ text. text.now) result ≡ debugging_text (with_capital code.now) }
{
    text_among(&DEBUGGING, code)
}

/// The text of a code among entries.
fn text_among<'a>(entries: &[(&'a str, &'a str)], code: &str) -> Option<&'a str>
    ensures { option_map (λ text. text.now) result ≡ text_among (map (λ entry. (entry.0.now, entry.1.now)) entries.now) (with_capital code.now) }
{
    first_text(entries, code)
}

/// The text of the first entry with a code, whose letter may be small.
fn first_text<'a>(entries: &[(&'a str, &'a str)], code: &str) -> Option<&'a str>
    ensures { option_map (λ text. text.now) result ≡ option_map (λ entry. entry.1.now) (find (λ entry. bytes_eq entry.0.now (with_capital code.now)) entries.now) }
{
    let entry = entries.iter().find(|entry| is_code(entry.0, code))?;
    Some(entry.1)
}

/// Whether a word is a code, whose letter it may have small.
fn is_code(code: &str, word: &str) -> bool
    ensures { result ≡ bytes_eq code.now (with_capital word.now) }
{
    match (code.as_bytes().split_first(), word.as_bytes().split_first()) {
        (Some((letter, number)), Some((first, others))) => {
            *letter == first.to_ascii_uppercase() && number == others
        }
        (None, None) => true,
        _ => false,
    }
}
