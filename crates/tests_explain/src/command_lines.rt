//! Command lines that are refused, and what is said of them.

/// Words, and the first line of what is said of them.
pub(crate) type WrongWords = (&'static [&'static str], &'static str);

static WRONG_WORDS: [WrongWords; 8] = [
    (
        &[],
        "error: the following required arguments were not provided:\n",
    ),
    (
        &["script", "x"],
        "error: invalid value 'x' for '[N]': invalid digit found in string\n",
    ),
    (
        &["script", "1000001"],
        "error: invalid value '1000001' for '[N]': 1000001 is not in 0..=1000000\n",
    ),
    (
        &["script", "1", "2"],
        "error: unexpected argument '2' found\n",
    ),
    (
        &["--width", "1000001", "script"],
        "error: invalid value '1000001' for '--width <N>': 1000001 is not in 0..=1000000\n",
    ),
    (
        &["--count=1", "script"],
        "error: unexpected value '1' for '--count' found; no more were expected\n",
    ),
    (
        &["--count", "--count", "script"],
        "error: the argument '--count' cannot be used multiple times\n",
    ),
    (
        &["--workers", "0", "script"],
        "error: invalid value '0' for '--workers <N>': 0 is not in 1..=64\n",
    ),
];

/// Command lines whose words are wrong.
pub(crate) fn wrong_words() -> &'static [WrongWords] {
    &WRONG_WORDS
}
