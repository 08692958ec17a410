//! Command lines that are refused.

/// Words, and the first line of what is said of them.
pub(crate) type WrongWords = (&'static [&'static str], &'static str);

static WRONG_WORDS: [WrongWords; 16] = [
    (
        &[],
        "error: the following required arguments were not provided:\n",
    ),
    (
        &["--workers", "8"],
        "error: the following required arguments were not provided:\n",
    ),
    (
        &["--workers", "0", "script"],
        "error: invalid value '0' for '--workers <N>': 0 is not in 1..=64\n",
    ),
    (
        &["--workers", "65", "script"],
        "error: invalid value '65' for '--workers <N>': 65 is not in 1..=64\n",
    ),
    (
        &["--max-pairs", "0", "script"],
        "error: invalid value '0' for '--max-pairs <N>': 0 is not in 1..=1000000\n",
    ),
    (
        &["--max-pairs", "1000001", "script"],
        "error: invalid value '1000001' for '--max-pairs <N>': 1000001 is not in 1..=1000000\n",
    ),
    (
        &["--max-nodes=100001", "script"],
        "error: invalid value '100001' for '--max-nodes <N>': 100001 is not in 1..=100000\n",
    ),
    (
        &["--max-nodes", "0", "script"],
        "error: invalid value '0' for '--max-nodes <N>': 0 is not in 1..=100000\n",
    ),
    (
        &["--workers", "two", "script"],
        "error: invalid value 'two' for '--workers <N>': invalid digit found in string\n",
    ),
    (
        &["script", "--workers=2", "--workers=3"],
        "error: the argument '--workers <N>' cannot be used multiple times\n",
    ),
    (
        &["--max-pairs", "2", "--max-pairs", "2", "script"],
        "error: the argument '--max-pairs <N>' cannot be used multiple times\n",
    ),
    (
        &["script", "other"],
        "error: unexpected argument 'other' found\n",
    ),
    (
        &["script", "script"],
        "error: unexpected argument 'script' found\n",
    ),
    (
        &["--", "script", "--workers"],
        "error: unexpected argument '--workers' found\n",
    ),
    (
        &["--rows", "1", "script"],
        "error: unexpected argument '--rows' found\n",
    ),
    (
        &["script", "--workers"],
        "error: a value is required for '--workers <N>' but none was supplied\n",
    ),
];

/// Command lines that are refused.
pub(crate) fn wrong_words() -> &'static [WrongWords] {
    &WRONG_WORDS
}
