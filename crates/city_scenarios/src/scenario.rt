//! A scenario of a file.

/// The parts of a scenario.
#[derive(Clone, Copy)]
pub struct Scenario<'t> {
    /// Its purpose.
    pub title: &'t str,
    /// The verb, and words for it.
    pub verb: &'t str,
    /// The lines of the verb's texts.
    pub texts: &'t str,
    /// The lines of the answer; a line with an arrow is a step.
    pub lines: &'t str,
}

/// The scenario of these lines: a title, a verb, texts, `----`, the answer. None if the title or `----` is missing.
pub fn scenario_of(part: &str) -> Option<Scenario<'_>> {
    let (title, rest) = part.split_once("\n")?;
    let (head, tail) = rest.split_once("\n----")?;
    let (verb, texts) = head.split_once("\n").unwrap_or((head, ""));
    Some(Scenario {
        title,
        verb,
        texts,
        lines: tail.trim_start(),
    })
}
