//! Texts of scripts, shown without a string for each part.
use city_model::OutOfMemory;
use std::alloc::Global;
use std::fmt::{self, Display, Formatter, Write};

/// An id of land: `x`, `y`, or `y0` and so on.
#[derive(Clone, Copy)]
enum Land {
    X,
    Y,
    Numbered(usize),
}

impl Display for Land {
    fn fmt<W: Write>(&self, f: &mut Formatter<W>) -> fmt::Result {
        match *self {
            Land::X => f.write_str("x"),
            Land::Y => f.write_str("y"),
            Land::Numbered(number) => write!(f, "y{number}"),
        }
    }
}

/// So many puts of an id, with a comma after each.
#[derive(Clone, Copy)]
struct Puts(Land, usize);

impl Display for Puts {
    fn fmt<W: Write>(&self, f: &mut Formatter<W>) -> fmt::Result {
        let Puts(id, count) = *self;
        for _ in 0..count {
            write!(f, r#"{{"put":"{id}","object":{{"type":"LandUse"}}}},"#)?;
        }
        Ok(())
    }
}

/// A script: its name, its puts, and its end.
#[derive(Clone, Copy)]
struct Script<'t>(&'t str, Puts, &'t str);

impl Display for Script<'_> {
    fn fmt<W: Write>(&self, f: &mut Formatter<W>) -> fmt::Result {
        let Script(name, puts, end) = *self;
        write!(f, r#"{{"name":"{name}","commands":[{puts}{end}]}}"#)
    }
}

const COMMIT: &str = r#""commit""#;

/// Three scripts with puts of `x`: `count` of them in the first, before its `end`.
pub fn three_scripts(alloc: Global, count: usize, end: &str) -> Result<String, OutOfMemory> {
    let first = Script("a", Puts(Land::X, count), end);
    let second = Script("b", Puts(Land::X, 1), COMMIT);
    let third = Script("c", Puts(Land::X, 1), COMMIT);
    format!(in alloc; "[{first},{second},{third}]")
}

/// Two scripts: the first puts `x` and `y`, the second `y` so often and then `x`.
pub fn two_scripts(alloc: Global, count: usize) -> Result<String, OutOfMemory> {
    let (x, y) = (Puts(Land::X, 1), Puts(Land::Y, 1));
    let again = Puts(Land::Y, count);
    format!(in alloc;
        r#"[{{"name":"a","commands":[{x}{y}"commit"]}},{{"name":"b","commands":[{again}{x}"commit"]}}]"#
    )
}

/// So many scripts with a comma before each, each with so many puts of an id of its own.
#[derive(Clone, Copy)]
struct Others(usize, usize);

impl Display for Others {
    fn fmt<W: Write>(&self, f: &mut Formatter<W>) -> fmt::Result {
        let Others(count, each) = *self;
        for number in 0..count {
            let other = Script("other", Puts(Land::Numbered(number), each), COMMIT);
            write!(f, ",{other}")?;
        }
        Ok(())
    }
}

/// A script with so many puts of `x`, and others, each with so many puts of an id of its own.
pub fn one_and_others(
    alloc: Global,
    first: usize,
    others: usize,
    each: usize,
) -> Result<String, OutOfMemory> {
    let first = Script("first", Puts(Land::X, first), COMMIT);
    let others = Others(others, each);
    format!(in alloc; "[{first}{others}]")
}
