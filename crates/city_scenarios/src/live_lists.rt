//! The requests of the verb `live`, handled in lists.
ghost use Rattle.city_model.specs.CityMap.{object_at};
ghost use Rattle.city_model.specs.Relations.{IsLawful};

use crate::live_steps::{add_answer, request_in};
use crate::steps::step_of;
use crate::written::Written;
use city_live::{Answer, Hands, NoJournal, Request, Tag};
use city_members::copied::Copied;
use city_members::text::Text;
use city_model::OutOfMemory;
use city_model::city::City;
use std::alloc::Global;
use std::mem;

/// Handles the requests of these steps in lists of two, of five, and all at once. Adds the answers if they aren't those
/// to one request after another.
pub fn add_lists(
    alloc: Global,
    city: &City,
    lines: &str,
    answer: &mut Written,
) -> Result<(), OutOfMemory>
    requires { IsLawful (object_at city.now.1) }
{
    let mut singly = Written::new(alloc);
    tell_singly(alloc, city, lines, &mut singly)?;
    for length in [2, 5, usize::MAX] {
        let mut told = Written::new(alloc);
        tell_in_lists(alloc, city, lines, length, &mut told)?;
        if told.as_slice() != singly.as_slice() {
            answer.add("in lists of ");
            answer.show(&length);
            answer.add(":\n");
            answer.add_written(&told);
        }
    }
    Ok(())
}

/// No hands yet, on a copy of a city.
fn hands_over(alloc: Global, city: &City) -> Result<Hands<NoJournal>, OutOfMemory>
    requires { IsLawful (object_at city.now.1) }
{
    let copied = city.copy(alloc)?;
    Ok(Hands::new(alloc, copied, 0, NoJournal))
}

/// Adds the answers to the requests of these steps, one after another.
fn tell_singly(
    alloc: Global,
    city: &City,
    lines: &str,
    told: &mut Written,
) -> Result<(), OutOfMemory>
    requires { IsLawful (object_at city.now.1) }
{
    let mut hands = hands_over(alloc, city)?;
    for line in lines.lines() {
        if let Some((hand, tag, request)) = request_at(alloc, line)? {
            add_each(alloc, hands.handle(hand, tag, request)?, told);
        }
    }
    Ok(())
}

/// Adds the answers to lists of so many requests of these steps.
fn tell_in_lists(
    alloc: Global,
    city: &City,
    lines: &str,
    length: usize,
    told: &mut Written,
) -> Result<(), OutOfMemory>
    requires { IsLawful (object_at city.now.1) }
{
    let mut hands = hands_over(alloc, city)?;
    let mut requests = Vec::new(alloc);
    for line in lines.lines() {
        if let Some(request) = request_at(alloc, line)? {
            requests.push(request)?;
        }
        if requests.len() >= length {
            let list = mem::replace(&mut requests, Vec::new(alloc));
            add_each(alloc, hands.handle_each(list)?, told);
        }
    }
    add_each(alloc, hands.handle_each(requests)?, told);
    Ok(())
}

/// The request of a line, if it is a step.
fn request_at(alloc: Global, line: &str) -> Result<Option<(Text, Tag, Request)>, OutOfMemory> {
    match step_of(line) {
        Some(step) => request_in(alloc, step),
        None => Ok(None),
    }
}

/// Adds a line for each answer.
fn add_each(alloc: Global, answers: Vec<Answer>, told: &mut Written) {
    for answer in answers {
        add_answer(alloc, answer, told);
        told.add("\n");
    }
}
