//! Passes over whole numbers and arrays of them.
ghost use Rattle.std.specs.Prelude.{◌≡◌, ◌+◌, ◌<◌, ◌≤◌, length, take, drop};
ghost use Rattle.std.specs.Bool.{OnTrue};
ghost use Rattle.city_decimals.specs.internal.Compact.{comma_if};
ghost use Rattle.city_decimals.specs.internal.Passed.{ArePassed, IsPassed};
ghost use Rattle.city_decimals.specs.internal.PlainNumbers.{IsKept};

use city_reader::few_digits_len;

/// How deep arrays are looked into at most. So few, because what leads to another value is read
/// again.
const MOST_LEVELS: usize = 8;

/// The most bytes read to pass an item: a sign, the digits, and the byte behind them.
const ROOM: usize = 20;

/// The length of the items at the front of a text, as far as they are short whole numbers and
/// arrays of them that nest at most `depth` deep. There is a comma before each item, but not before
/// the first if it isn't `later`. There may be more of them.
#[inline(never)]
pub(crate) fn whole_items_len(text: &[u8], later: bool, depth: usize) -> usize
    ensures { ArePassed later depth text.now result }
{
    if !has_comma(text, later) {
        return 0;
    }
    let most = depth.min(MOST_LEVELS);
    let mut done = 0;
    let mut level = 0;
    let mut at = comma_len(later);
    'items: while at < text.len() {
        if text[at] == b'[' {
            if level >= most {
                return done;
            }
            level += 1;
            at += 1;
            continue;
        }
        let end = numbers_end(text, at);
        if end == at {
            return done;
        }
        at = end;
        'ends: while level > 0 && at < text.len() && text[at] == b']' {
            level -= 1;
            at += 1;
        }
        done = if level == 0 { at } else { done };
        if at >= text.len() || text[at] != b',' {
            return done;
        }
        at += 1;
    }
    done
}

/// The end of the short whole numbers from `from` on, with a comma between each two; `from` if there
/// is none.
#[inline(never)]
fn numbers_end(text: &[u8], from: usize) -> usize
    requires { from ≤ length text.now }
    ensures bounds { (from ≤ result) × (result ≤ length text.now) }
    ensures passed { from < result → IsPassed text.now from result }
{
    if text.len() < ROOM {
        return from;
    }
    let last = text.len() - ROOM;
    let mut end = from;
    let mut at = from;
    while at <= last {
        let len = short_len(text, at);
        if len == 0 {
            return end;
        }
        end = at + len;
        if text[end] != b',' {
            return end;
        }
        at = end + 1;
    }
    end
}

/// The length of the number at `at`, if it is at most 15 digits without a leading zero, perhaps
/// after a minus sign, and not `-0`; else 0.
#[inline(always)]
fn short_len(text: &[u8], at: usize) -> usize
    requires { at + 20 ≤ length text.now }
    ensures within { result < 17 }
    ensures kept { 0 < result → IsKept (take result (drop at text.now)) }
{
    let count = few_digits_len(text, at);
    if count == 0 {
        return negative_len(text, at);
    }
    if text[at] == b'0' && count > 1 {
        return 0;
    }
    count
}

/// The same for a number with a minus sign.
#[inline(always)]
fn negative_len(text: &[u8], at: usize) -> usize
    requires { at + 20 ≤ length text.now }
    ensures within { result < 17 }
    ensures kept { 0 < result → IsKept (take result (drop at text.now)) }
{
    if text[at] != b'-' || text[at + 1] == b'0' {
        return 0;
    }
    let count = few_digits_len(text, at + 1);
    if count == 0 {
        return 0;
    }
    1 + count
}

/// Whether a comma is next, or none is needed.
#[inline(always)]
pub(crate) fn has_comma(text: &[u8], later: bool) -> bool
    ensures len { OnTrue result (length (comma_if later) ≤ length text.now) }
    ensures value { OnTrue result (take (length (comma_if later)) text.now ≡ comma_if later) }
{
    !later || (!text.is_empty() && text[0] == b',')
}

/// The length of the comma, if one is needed.
#[inline(always)]
pub(crate) fn comma_len(later: bool) -> usize
    ensures { result ≡ length (comma_if later) }
{
    if later { 1 } else { 0 }
}
