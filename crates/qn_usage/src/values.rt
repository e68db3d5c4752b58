//! What a word of a synopsis stands for.
use qn_base::{LONGEST_PERIOD, read_decimal};

/// Five times, each 1 to 3600000 milliseconds, separated by commas.
const TIMES: &str = "W,M,L,R,S";

/// Three paths of which no two are the same, separated by commas.
const PATHS: &str = "P1,P2,P3";

/// Whether a word is a value of this kind: `LEAST..GREATEST` stands for the decimal numbers in a range, `ONE|OTHER` for one of these
/// words, `W,M,L,R,S` for five times, `P1,P2,P3` for three paths, and every other word for any word. A name of the value, and a
/// colon, may stand before.
pub fn is_value(kind: &str, word: &str) -> bool {
    let kind = match kind.split_once(':') {
        Some((_name, kind)) => kind,
        None => kind,
    };
    if let Some((least, greatest)) = kind.split_once("..") {
        return is_number(limit(least), limit(greatest), word);
    }
    if kind == TIMES {
        return word.split(',').count() == 5
            && word
                .split(',')
                .all(|time| is_number(1, LONGEST_PERIOD, time));
    }
    if kind == PATHS {
        return are_three_paths(word);
    }
    !kind.contains('|') || kind.split('|').any(|one| one == word)
}

/// A limit of a range; the greatest number where none is written.
fn limit(word: &str) -> u64 {
    read_decimal(word.as_bytes()).unwrap_or(u64::MAX)
}

/// Whether a word is a decimal number in this range.
fn is_number(least: u64, greatest: u64, word: &str) -> bool {
    match read_decimal(word.as_bytes()) {
        Some(number) => least <= number && number <= greatest,
        None => false,
    }
}

/// Whether a word is three paths, separated by commas, of which no two are the same.
fn are_three_paths(word: &str) -> bool {
    let Some((first, rest)) = word.split_once(',') else {
        return false;
    };
    let Some((second, third)) = rest.split_once(',') else {
        return false;
    };
    !third.contains(',') && first != second && first != third && second != third
}
