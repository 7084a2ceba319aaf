//! The words after the file's name.

/// What is done.
#[derive(Clone, Copy)]
pub(crate) enum Work {
    /// Closing by the filters of the families.
    Fast,
    /// Closing by the filter that goes end by end.
    Ends,
    /// Closing, and closing again so many times after one variable has lost a value.
    Again(u32),
    /// Taking a variable's ends away so many times.
    Cut(u32),
}

/// What the words ask for.
pub(crate) fn work_of(words: &[String]) -> Option<Work> {
    match words {
        [word] => alone(word.as_str()),
        [word, number] => repeated(word.as_str(), number.as_str().parse::<u32>().ok()?),
        _ => None,
    }
}

fn alone(word: &str) -> Option<Work> {
    if word == "fast" {
        return Some(Work::Fast);
    }
    if word == "ends" {
        return Some(Work::Ends);
    }
    None
}

fn repeated(word: &str, times: u32) -> Option<Work> {
    if word == "again" {
        return Some(Work::Again(times));
    }
    if word == "cut" {
        return Some(Work::Cut(times));
    }
    None
}
